//! The body of a request, read as a stream of commits.
//!
//! ```
//! match read_stream(alloc, &mut source, &mut held, rest, most) {
//!     ReadStream::Come(Ok(rows)) => join(rows),
//! ```
#![tactic(auto)]

mod commits;
mod read;

pub use commits::{Commits, commits_in};
pub use read::{ReadStream, read_stream};
