//! Which advisories hit what is asked: the definitions, and plain functions for them.
//!
//! ```
//! let mut found = HitIds::new(alloc);
//! found.import(alloc, advisory, repos, &subject, steps)?;
//! let ids = found.into_vec(alloc)?;
//! ```
#![tactic(auto)]

mod by_commit;
mod by_subject;
mod by_version;
mod evaluation;
mod git_imports;
mod hit_ids;
pub mod laws;

pub use by_commit::git_hit;
pub use by_subject::is_hit;
pub use by_version::version_hit;
pub use evaluation::hits;
pub use git_imports::GitImports;
pub use hit_ids::HitIds;
