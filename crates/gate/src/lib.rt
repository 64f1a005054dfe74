//! Hooks round the work of a job, by which a test holds one worker until another has come to a point.
//!
//!     let gate = HoldGate::new(1, 0, 1, 10_000_000);
//!     gate.before(1, 0); // returns once some thread has called gate.after(1, 1)
//!     assert!(gate.is_holding() && !gate.ran_out());
#![tactic(auto)]

mod hold;
mod hooks;

pub use hold::HoldGate;
pub use hooks::{Gate, OpenGate};
