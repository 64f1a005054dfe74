//! Page tokens: where a walk over the pages of one snapshot goes on.
//!
//! ```
//! let token = page_token::read(alloc, "12~GHSA-1")?; // snapshot 12, behind GHSA-1
//! let text = page_token::write(alloc, &token)?; // "12~GHSA-1" again
//! ```
#![tactic(auto)]

mod decimal;
pub mod laws;
mod token;

pub use token::{Token, TokenFault, read, write};
