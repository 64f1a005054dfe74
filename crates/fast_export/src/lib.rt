//! The commits of a `git fast-export --show-original-ids` stream, fed in pieces of any size.
//!
//! ```
//! let mut reader = Reader::new(alloc, 1_000_000)?;
//! reader.feed(piece)?;
//! let rows = reader.finish()?;
//! ```
#![tactic(auto)]

mod commands;
mod commits;
mod cut;
mod fault;
mod grammar;
mod line;
mod opening;
mod reader;
mod reading;

pub use fault::StreamFault;
pub use reader::Reader;
pub use reading::MAX_LINE_BYTES;
