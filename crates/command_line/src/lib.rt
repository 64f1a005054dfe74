//! The words of the command line, read as a command.
//!
//! ```
//! match command_line::read(alloc, &words)? {
//!     Some(Command::Check { input }) => println!(rt; "at most {input} bytes")?,
//!     _ => println!(rt; "another command, or none")?,
//! }
//! ```
//!
//! `table` has the options and which command takes which; `clap` reads the words by it, and what
//! stands behind it here turns texts into numbers, ids and keys.
#![tactic(auto)]

mod command;
pub mod laws;
mod matched;
mod number;
mod operands;
mod table;
#[cfg(test)]
mod tests;
mod words;

pub use command::{Command, MAX_DRILL, MAX_HELPERS, MAX_LANES, MIN_DRILL};
pub use words::read;
