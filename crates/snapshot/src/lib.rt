//! Immutable snapshots of imports, which answer queries, and the jobs that make them.
//!
//! ```
//! let snapshot = assemble(alloc, &base, &filled)?;
//! let found = snapshot.look(alloc, &subject, None, 100, steps)?; // borrows its hits from the snapshot
//! let page = snapshot.answer(alloc, &subject, None, 100, steps)?; // outlives it
//! let advisory = snapshot.find(&id);
//! ```
#![tactic(auto)]

mod assembly;
mod commits;
mod job;
pub mod laws;
mod packages;
mod page;
mod ranges;
mod snapshot;
mod work;

pub use assembly::assemble;
pub use job::{Finished, Job, Place};
pub use page::{Found, Page};
pub use snapshot::Snapshot;
pub use work::do_job;
