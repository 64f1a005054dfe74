//! The compiled forms of the ranges of advisories, by their indexes, in parts that later lists share.
//!
//!     let index = FormIndex::build(alloc, records)?;
//!     let forms = index.of(2);
#![tactic(auto)]

mod growing;
mod index;
mod moving;
mod parts;

pub use index::FormIndex;
