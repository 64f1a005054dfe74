//! What the calls of a desk come to for a session, whatever the desk: the caller goes on, its own entries grow
//! by what the answer tells, and its counts show the call; and a publication by turns of such calls.
//!
//! ```
//! let sign = publish(alloc, &mut desk, &OpenGate, steps)?; // Published { snapshot, upto }
//! ```
#![tactic(auto)]

mod calls;
mod repos;
mod turns;

pub use calls::{
    Found, Named, count_of, find_all, finish_of, give_back_of, import_of, kept_of, newest_of,
    pull_of,
};
pub use repos::{grow_of, repo_of};
pub use turns::publish;
