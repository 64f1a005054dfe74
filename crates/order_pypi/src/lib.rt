//! PEP 440's order of versions:
//!
//! ```text
//! let release = order_pypi::read(alloc, "1.0")?;
//! let candidate = order_pypi::read(alloc, "1.0rc1")?;
//! let is_before = candidate < release; // true
//! ```
#![tactic(auto)]

mod compare;
mod key;
pub mod laws;
mod parts;
mod scan;
mod word;

pub use key::{PypiKey, read};
