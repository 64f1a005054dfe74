//! The jobs of a build: the plan of a snapshot from the one before and what was imported since.
//!
//! ```
//! let mut prefix = Prefix::over(alloc, base);
//! prefix.import(advisory)?;
//! let plan = plan(alloc, &prefix)?;
//! let set = set_of(alloc, &plan, 0, steps)?;
//! let tables = tables_of(alloc, &Filled { plan, made })?;
//! ```
#![tactic(auto)]

mod building;
mod by_repo;
mod counts;
mod latest;
mod merge;
mod moves;
mod piece_sets;
mod planning;
mod prefix;
mod repos;
mod split;
mod tables;
mod todo;

pub use building::tables_of;
pub use piece_sets::set_of;
pub use planning::plan;
pub use prefix::Prefix;
pub use split::{Split, split_at_id};
pub use tables::{Filled, Plan, Tables, Todo, first_sets};
