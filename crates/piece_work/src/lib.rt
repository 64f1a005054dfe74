//! The pieces of a build: for each GIT range of each advisory, its set of affected commits, made anew,
//! extended or carried on.
//!
//!     let set = work(alloc, &piece, &mut steps)?;
//!     let affected = set.has(number);
#![tactic(auto)]

pub mod laws;
mod piece;

pub use piece::{Piece, events_at, work};
