//! JSON values that are looked into, read as `serde_json` reads them:
//!
//! ```text
//! let mut buffers = Buffers::new(alloc);
//! let document = Document::read(alloc, b"{\"id\":\"X-1\"}", &mut buffers)?;
//! let id = document.root().member("id").and_then(|node| node.as_str()); // Some("X-1")
//! ```
#![tactic(auto)]

mod document;
mod limits;
mod node;
mod numbers;
mod walk;

pub use document::{Buffers, Document, JsonFault};
pub use node::{Elements, Node};
