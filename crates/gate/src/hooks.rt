// The hooks, and the gate that holds nobody.

use std::thread::yield_now;

/// Hooks that are called round a job. No answer depends on what they do, and each returns by itself.
///
/// A build has the number of the snapshot that it is to make, and a piece its number in the build's plan, from 0.
pub trait Gate: Sync {
    /// Called before a piece is worked on.
    fn before(&self, build: u64, number: u32);

    /// Called after a piece was worked on.
    fn after(&self, build: u64, number: u32);

    /// Called by a worker that finds nothing to do.
    fn idle(&self);
}

/// The gate that holds nobody. A worker that finds nothing to do yields.
#[derive(Clone, Copy, Debug, PartialEq, Eq)]
pub struct OpenGate;

impl Gate for OpenGate {
    fn before(&self, _build: u64, _number: u32) {}

    fn after(&self, _build: u64, _number: u32) {}

    fn idle(&self) {
        yield_now();
    }
}
