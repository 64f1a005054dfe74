//! The sets of GIT ranges by repository, which tell the advisories that affect a commit.
//!
//!     let index = RepoIndex::build(alloc, advisories, sets)?;
//!     let indexes = index.hits(alloc, places, 0, most)?;
#![tactic(auto)]

mod index;
mod keys;
mod lists;
mod noted;
mod numbering;
mod picking;

pub use index::RepoIndex;
pub use lists::sets_at;
