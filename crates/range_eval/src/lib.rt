//! Which versions are in a range of events: a plain function, and a form that is made once for many versions.
//!
//! ```text
//! let events = [(EventKind::Introduced, Bound::At(2)), (EventKind::Fixed, Bound::At(5))];
//! let inside = is_in_range(&events, &4); // true
//! let outside = is_in_range(&events, &5); // false
//! ```
#![tactic(auto)]

mod compiled;
mod order;
mod plain;

pub use compiled::Compiled;
pub use plain::is_in_range;
