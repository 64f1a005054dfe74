//! The desks of callers that share a book under a lock.
//!
//! ```
//! let (lock, pass) = share(alloc, book)?;
//! let mut desk = PassDesk::enter(&rt, &lock, pass)?;
//! let place = desk.import(advisory)?;
//! let pass = desk.leave();
//! ```
//!
//! Each call of a desk is one turn of the lock, in which one call of `calls` acts on the book.
#![tactic(auto)]

mod boxed_book;
mod calls;
mod pass_desk;

pub use boxed_book::{BookLock, BookPass, BoxedBook, share};
pub use calls::{CountImports, Enrol, Finish, GiveBack, Grow, Import, Look, Pull, ShowRepo, Take};
pub use pass_desk::PassDesk;
