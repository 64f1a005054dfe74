//! Connections as they come: a listener gives each as a source and a sink, to any number of lanes beside one another.
//!
//! ```text
//! let mut door = TcpDoor::new(&rt, rt.alloc(), u64::MAX)?;
//! door.listen("127.0.0.1:8080")?;
//! while let Some((mut source, mut sink)) = door.accept()? { .. }
//! ```
#![tactic(auto)]

mod allowance;
mod door;
mod link;
mod listener;
mod memory;

pub use allowance::{Allowance, PATIENCE_SECONDS, SECOND_BYTES};
pub use door::{TcpDoor, TcpSink, TcpSource};
pub use listener::Listener;
pub use memory::MemListener;
