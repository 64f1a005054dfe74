//! One caller's way to a book, alone with it or beside others: the trait over which sessions and workers
//! are written.
//!
//! ```
//! let place = desk.import(advisory)?;
//! let goal = desk.imports();
//! let pulled = desk.pull(goal)?;
//! ```
#![tactic(auto)]

mod desk;

pub use book_model::{CallersSpent, GrowFault, ImportFault, Progress, Strange};
pub use desk::{Desk, Kept, Newest, Pulled, Taken};
