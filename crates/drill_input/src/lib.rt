//! What a drill imports and asks: commits, advisories and questions, drawn from a number.
//!
//! ```
//! let mut draws = Draws::from_seed(7);
//! let rows = commits(alloc, &mut draws, size)?;
//! let records = advisories(alloc, &mut draws, size)?;
//! let asked = asked(alloc, &mut draws, size)?;
//! ```
#![tactic(auto)]

mod advisory;
mod commit;
mod draws;
mod question;
mod text;

pub use advisory::advisories;
pub use commit::commits;
pub use draws::Draws;
pub use question::{QUESTIONS, asked, package_question, repo_key};
