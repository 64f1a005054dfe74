//! The book of a service: its history, the graphs of repositories, the build that is open, and the snapshots
//! that are kept.
//!
//! ```
//! let mut book = Book::new(alloc, settings)?;
//! let me = book.enrol()?;
//! let place = book.import(me, advisory)?;
//! ```
//!
//! Contracts see a book as its state. Each method is one step of it, as book_model defines the steps; a
//! book under a lock is `Stored`, its settings being what no call changes.
#![tactic(auto)]

mod build;
mod entry;
mod finish;
mod ledger;
mod look;
mod pieces;
mod prefix;
mod repos;
mod stored;

pub use entry::Entry;
pub use finish::Gone;
pub use ledger::Book;
