ghost use Rattle.impact_worker.specs.Working.{Works, Ends};

use crate::one::{Came, work_once};
use book_desk::Desk;
use gate::Gate;
use osv_prim::{Ledger, Steps};
use std::alloc::Global;

/// Why no more jobs were done.
#[derive(Clone, Copy, Debug, PartialEq, Eq)]
pub enum DrainEnd {
    /// There was none: no build was open, or all jobs of its phase were done or out, `out` of them.
    Nothing { out: u64 },
    /// As many were done as may be.
    Most,
    /// There was no memory to hand out the next one, or to do it. It is free again.
    Memory,
}

/// How many jobs were handed in, and why no more.
#[derive(Clone, Copy, Debug, PartialEq, Eq)]
pub struct Drained {
    pub did: u64,
    pub end: DrainEnd,
}

/// Asks its desk for jobs and does them, one after another and at most `most`, until there is none or no
/// memory. It waits for nobody but its desk.
pub fn drain<D: Desk, G: Gate, L: Ledger>(
    alloc: Global,
    desk: &mut D,
    gate: &G,
    most: u64,
    steps: &mut Steps<L>,
) -> Drained
    ensures works { Works result.did (D.caller desk.old) (D.caller desk.new) }
    ensures ends { Ends most result.did result.end (D.caller desk.old) (D.caller desk.new) }
{
    let _known = desk.point();
    for did in 0..most {
        match work_once(alloc, desk, gate, steps) {
            Came::Did => {}
            Came::Nothing { out } => {
                return Drained {
                    did,
                    end: DrainEnd::Nothing { out },
                };
            }
            Came::Memory => {
                return Drained {
                    did,
                    end: DrainEnd::Memory,
                };
            }
        }
    }
    Drained {
        did: most,
        end: DrainEnd::Most,
    }
}
