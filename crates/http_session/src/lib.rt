//! A session: the requests of one connection, read and answered one after the other over a desk.
//!
//! ```
//! let session = serve_session(alloc, &mut desk, &OpenGate, &mut source, &mut sink, &settings, steps);
//! let whole = session.end == End::Ended;
//! ```
#![tactic(auto)]

mod asked;
mod marks;
mod refusal;
mod serve;
mod session;
mod turn;

pub use session::serve_session;
pub use session_model::{End, SessionEnd, Sign};
