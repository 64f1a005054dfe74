//! A drill: imports that are drawn from a number go through the steps of two callers, and the newest snapshot
//! is asked at the end.
//!
//! ```
//! let text = drill(alloc, 7, 2_000, steps)?;
//! ```
#![tactic(auto)]

mod asking;
mod importing;
mod input;
mod line;
mod parts;
mod publishing;
mod single;

pub use line::drill;
