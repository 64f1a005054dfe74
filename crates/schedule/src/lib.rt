//! Any order of single calls of a book, as a list of steps: what the threads of a service do in some order,
//! a program does here in this one.
//!
//! ```
//! let answers = play(alloc, &mut book, steps_of_callers, &settings, steps)?;
//! ```
#![tactic(auto)]

mod calls;
mod jobs;
pub mod laws;
mod player;
mod step;

pub use player::play;
pub use step::{Answer, PlayFault, Step};
