//! HTTP/1.1 on the wire (RFC 9112): requests in, whatever pieces their bytes come in, and replies out.
//!
//! ```
//! let mut held = Held::new(alloc)?;
//! let room = Room { body: 1 << 20, stream: 1 << 30 };
//! match read_request(alloc, &mut source, &mut sink, &mut held, room) {
//!     Got::Request(request) => answer(request),
//! ```
#![tactic(auto)]

mod asking;
mod body;
mod chunk;
mod fault;
mod fields;
mod fill;
mod find;
mod head;
mod head_line;
mod held;
pub mod laws;
mod line;
mod look;
mod opening;
mod out;
mod parse;
mod part;
mod read;
mod reply;
mod reply_body;
mod request;
mod rest;
mod room;
mod scan;
mod settle;
mod taking;
mod window;
mod words;
mod write;

pub use body::{ReadBody, read_body};
pub use fault::WireFault;
pub use head::{GotHead, read_head};
pub use held::Held;
pub use out::Out;
pub use part::read_part;
pub use read::{Got, read_request};
pub use reply::{Allow, Reply};
pub use reply_body::ReplyBody;
pub use request::Request;
pub use rest::{Part, Rest};
pub use room::Room;
pub use write::{write_memory, write_reply};
