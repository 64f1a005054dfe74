//! Graphs of commits that grow by rows, each after its parents.
//!
//! ```
//! let graph = Graph::empty(alloc)?.extend(alloc, rows, 1_000_000, steps)?;
//! if let Some(number) = graph.number_of(&commit) {
//!     let parents = graph.parents_at(number, steps);
//! }
//! ```
#![tactic(auto)]

mod fault;
mod graph;
mod joining;
mod segment;
mod segments;

pub use fault::GraphFault;
pub use graph::Graph;
