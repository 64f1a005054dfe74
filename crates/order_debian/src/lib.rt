//! Debian's order of versions:
//!
//! ```text
//! let release = order_debian::read(alloc, "1.0-1")?;
//! let before = order_debian::read(alloc, "1.0~rc1-1")?;
//! let is_before = before < release; // true
//! ```
#![tactic(auto)]

mod key;
mod part;
mod places;

pub use key::{DebianKey, read};
