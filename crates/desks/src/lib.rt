//! A caller's way to a book of its own.
//!
//! ```
//! let mut desk = OwnDesk::new(alloc, settings)?;
//! let place = desk.import(advisory)?;
//! let goal = desk.imports();
//! ```
#![tactic(auto)]

mod own_desk;

pub use own_desk::OwnDesk;
