//! What a request is answered, over any desk.
//!
//! ```
//! let answered = answer(alloc, &mut desk, &OpenGate, request, None, closes, &settings, buffers, out, steps)?;
//! write_reply(&mut sink, out, answered.reply)?;
//! ```
#![tactic(auto)]

mod answering;
mod batch;
mod find;
mod import;
mod publish;
mod put;
mod query;
mod reply;
mod repo;
mod request;

pub use answering::answer;
pub use reply::Answered;
pub use request::is_streamed;
