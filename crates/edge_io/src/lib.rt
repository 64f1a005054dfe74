//! Sources that bytes come from and sinks that bytes go to, each with a count of its faults:
//!
//! ```text
//! let mut sink = WriteEnd::new(io::writer(&rt));
//! write_whole(&mut sink, b"200 OK")?; // or SinkFault { out }: the first `out` bytes were taken
//! ```
#![tactic(auto)]

mod calm;
mod ends;
mod memory;
mod sink;
mod source;

pub use calm::{CalmSink, CalmSource};
pub use ends::{ReadEnd, WriteEnd};
pub use memory::{MemSink, MemSource};
pub use sink::{Sink, SinkFault, write_whole};
pub use source::{Failed, Source};
