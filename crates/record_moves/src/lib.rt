//! Where the advisories of a list are in a later one.
//!
//!     let mut moves = Moves::new(alloc);
//!     moves.keep(below.len())?;
//!     moves.add()?;
#![tactic(auto)]

mod moves;

pub use moves::Moves;
