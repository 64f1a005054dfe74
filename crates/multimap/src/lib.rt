//! Values under keys, of which each may have several, kept as two lists in the order of the keys.
//!
//!     let map = Multimap::build(alloc, entries)?;
//!     let values = map.get(&key);
#![tactic(auto)]

mod search;
mod sorted;

pub use sorted::Multimap;
