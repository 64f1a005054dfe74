//! Which commits a GIT range affects, by walks through a graph of commits.
//!
//! ```
//! if let Some(number) = graph.number_of(&commit) {
//!     let affected = affects(alloc, &graph, range.events.as_slice(), number, steps)?;
//! }
//! ```
#![tactic(auto)]

mod affected;
mod events;
pub mod laws;
mod limits;
mod marks;
mod reached;

pub use affected::affects;
pub use events::{all_read, has_limit, names_all, row_named};
