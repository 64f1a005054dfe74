//! The order of versions that a range has, and the versions that its events contain:
//!
//! ```text
//! let order = Order::of(RangeKind::Ecosystem, "PyPI"); // Some(Order::Pypi)
//! let version = Version::read(alloc, Order::Pypi, "1.0rc1")?;
//! let is_hit = contains(alloc, Order::Pypi, range.events.as_slice(), &version)?;
//! ```
#![tactic(auto)]

mod bounds;
mod order;
mod version;

pub use bounds::{contains, read_bounds, reads_all};
pub use order::Order;
pub use version::Version;
