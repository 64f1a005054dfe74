use crate::snapshot::Snapshot;
use impact_job::{Filled, Plan, Prefix};
use impact_set::ImpactSet;
use std::sync::Arc;

/// A job of a build, which `do_job` does. A build has the number of the snapshot that it is to make, and a
/// piece its number in the plan, from 0. Who takes a job out does it, or gives it back.
#[derive(Drop)]
pub enum Job {
    Plan {
        build: u64,
        prefix: Arc<Prefix>,
    },
    Piece {
        build: u64,
        plan: Arc<Plan>,
        number: u32,
    },
    /// With the snapshot on which the build stands.
    Assemble {
        build: u64,
        base: Arc<Snapshot>,
        filled: Arc<Filled>,
    },
}

/// What a job came to.
#[derive(Drop)]
pub enum Finished {
    /// With where each piece of the build is.
    Plan {
        build: u64,
        plan: Arc<Plan>,
        places: Vec<Place>,
    },
    /// The set of a GIT range, in a build of `upto` imports.
    Piece {
        build: u64,
        upto: u64,
        number: u32,
        set: Arc<ImpactSet>,
    },
    Assemble {
        build: u64,
        snapshot: Arc<Snapshot>,
    },
}

/// Where a piece of a build is.
#[derive(Drop)]
pub enum Place {
    /// Nobody has it.
    Free,
    /// A caller has it, by its number.
    Out { by: u64 },
    /// It is done, and made this set.
    Made(Arc<ImpactSet>),
    /// There is nothing to do: the plan carries the set on.
    Carried,
}
