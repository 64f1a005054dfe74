//! Which advisories have an entry of a package.
//!
//!     let index = PackageIndex::build(alloc, records)?;
//!     let places = index.listed(&asked);
#![tactic(auto)]

mod distinct;
mod growing;
mod index;
mod moving;
mod numbers;

pub use distinct::sort_distinct;
pub use index::PackageIndex;
