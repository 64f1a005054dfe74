//! A book as contracts see it: its history, its callers, the build that is open, and its note; and what
//! each call does to them. A method of a book promises its step, a relation of the state before, the
//! answer and the state after:
//!
//! ```
//! pub fn import(&mut self, by: u64, advisory: Arc<Record>) -> Result<u64, ImportFault>
//!     requires { by < self.old.callers }
//!     ensures { Imports by advisory.value self.old result self.new }
//! ```
//!
//! The functions of `laws` do nothing; their contracts say what the steps keep.
#![tactic(auto)]

mod answers;
pub mod laws;

pub use answers::{
    CallersSpent, GrowFault, ImportFault, Kept, Newest, Progress, Pulled, Strange, Taken,
};
