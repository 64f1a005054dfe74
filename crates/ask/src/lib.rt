//! The commands over advisories by line: which of them touch what is asked for, and what is wrong
//! with each.
//!
//! ```
//! let output = ask::ask(alloc, &subject, 1 << 20, &mut source, &mut steps)?;
//! println!(rt; "status {}, {} bytes", output.status, output.bytes.as_slice().len())?;
//! ```
#![tactic(auto)]

mod asked;
mod checked;
mod commits;
mod hits;
mod line;
mod output;
mod parts;
mod stop;

pub use asked::ask;
pub use checked::check;
pub use commits::CommitFault;
pub use line::LineFault;
pub use output::Output;
