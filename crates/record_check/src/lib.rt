//! What in an advisory can never match, or says two things:
//!
//! ```text
//! for notice in notices(alloc, &advisory)?.as_slice() {
//!     println!(rt; "{} {}", notice.kind.code(), notice.kind.name())?;
//! }
//! ```
#![tactic(auto)]

mod notice;
mod noting;

pub use notice::{Notice, NoticeKind};
pub use noting::notices;
