//! Which advisories affect a commit, by the sets of their GIT ranges: no graph is walked.
//!
//!     let places = places_of(alloc, repos, &commit)?;
//!     let hit = git_hit(&advisory, sets, places.as_slice(), None);
#![tactic(auto)]

mod hit;
mod places;

pub use hit::git_hit;
pub use places::places_of;
