//! Precedence of semantic versions:
//!
//! ```text
//! let release = order_semver::read(alloc, "v1.0")?;
//! let candidate = order_semver::read(alloc, "1.0.0-rc.1+build")?;
//! let is_before = candidate < release; // true
//! ```
#![tactic(auto)]

mod key;
mod pre_release;
mod text;

pub use key::{SemverKey, read};
