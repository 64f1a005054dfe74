//! Which repositories have a commit, and in which row of their graphs.
//!
//!     let index = CommitIndex::build(alloc, repos, &mut steps)?;
//!     let places = index.places(&oid);
#![tactic(auto)]

mod index;

pub use index::CommitIndex;
