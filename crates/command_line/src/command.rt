use osv_prim::{Subject, Text};
use settings::Settings;

/// The most connections that `serve` serves beside one another; at least one is.
pub const MAX_LANES: u64 = 64;

/// The most threads that do the jobs of publications beside them.
pub const MAX_HELPERS: u64 = 64;

/// The fewest commits and advisories of a drill.
pub const MIN_DRILL: u64 = 4;

/// The most commits and advisories of a drill.
pub const MAX_DRILL: u64 = 2_000;

/// What the program is to do.
#[derive(Debug, Drop)]
pub enum Command {
    /// `ask`: write the ids of the advisories that hit what is asked for.
    Ask {
        subject: Subject,
        /// The most bytes of input, from 1 to `MAX_INPUT_BYTES`.
        input: u64,
    },
    /// `check`: write a verdict on each line.
    Check {
        /// The most bytes of input, from 1 to `MAX_INPUT_BYTES`.
        input: u64,
    },
    /// `replay`: answer the requests of the input.
    Replay(Settings),
    /// `serve`: answer the requests of connections.
    Serve {
        settings: Settings,
        /// How many connections are served beside one another, from 1 to `MAX_LANES`.
        lanes: u64,
        /// How many threads do the jobs of publications beside them, from 0 to `MAX_HELPERS`.
        helpers: u64,
        /// Where connections come in. It is not empty.
        address: Text,
    },
    /// `drill`: write how many hits a history that is drawn from a number has.
    Drill {
        seed: u64,
        /// How many commits are drawn, and how many advisories, from `MIN_DRILL` to `MAX_DRILL`.
        size: u32,
    },
}
