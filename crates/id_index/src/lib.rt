//! Where an id stands among advisories.
//!
//!     let index = IdIndex::build(alloc, records)?;
//!     let found = index.find(records, b"CVE-2020-8203");
#![tactic(auto)]

mod head;
mod hints;
mod index;

pub use index::IdIndex;
