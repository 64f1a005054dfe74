//! An input by lines: a reader of the lines of a source as they come.
//!
//! ```
//! let mut reader = LineReader::new(alloc, 1 << 20);
//! while reader.next(&mut source)? == Next::Here {
//!     let line = reader.line();
//!     println!(rt; "line {} has {} bytes", line.number, line.text.len())?;
//! }
//! ```
#![tactic(auto)]

mod reader;
mod stop;
mod window;

pub use reader::{LineReader, Next, NumberedLine};
pub use stop::ReadStop;
