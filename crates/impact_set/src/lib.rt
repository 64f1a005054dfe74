//! Which commits of a graph a GIT range affects, kept as a set that grows with the graph.
//!
//!     let set = ImpactSet::fresh(alloc, events, &graph, &mut steps)?;
//!     let larger = set.extend(alloc, events, &grown, &mut steps)?;
//!     let affected = larger.has(number);
#![tactic(auto)]

mod before;
mod bits;
mod digest;
pub mod laws;
mod limits;
mod named;
mod reached;
mod set;

pub use set::ImpactSet;
