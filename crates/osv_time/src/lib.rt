//! The times of advisories, read from their texts:
//!
//! ```text
//! let nanos = osv_time::read("1970-01-01T00:00:01.5Z"); // Some(1_500_000_000)
//! let none = osv_time::read("1970-01-01 00:00:01Z"); // None
//! ```
#![tactic(auto)]

mod parts;
mod time;

pub use time::read;
