//! What a service replies, and what a session is: each reply is fixed by the request, by the histories at the
//! point before and at its own point, and by its sign.
//!
//! ```
//! let session = serve_session(..); // of http_session
//! for (point, sign) in session.points.iter().zip(&session.signs) { .. }
//! ```
//!
//! The functions of `laws` do nothing; their contracts say what follows for a whole session.
#![tactic(auto)]

mod end;
pub mod laws;
mod route;
mod sign;

pub use end::{End, SessionEnd};
pub use route::Route;
pub use sign::Sign;
