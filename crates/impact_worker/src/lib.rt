//! Does the jobs of builds at a caller's desk: so many of them, or until it is told to stop.
//!
//! ```
//! let drained = drain(alloc, &mut desk, &gate, 1_000_000, &mut steps);
//! let did = help(&rt, alloc, &mut desk, &gate, &stop, &mut steps);
//! ```
#![tactic(auto)]

mod drained;
mod helping;
mod one;

pub use drained::{DrainEnd, Drained, drain};
pub use helping::help;
