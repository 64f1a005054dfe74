// The gate that holds one piece until another is done.

use crate::hooks::Gate;
use std::sync::atomic::{AtomicBool, Ordering};
use std::thread::yield_now;

/// Holds one piece of a build before it is worked on, until another piece of that build is done.
#[derive(Drop)]
pub struct HoldGate {
    build: u64,
    turns: u64,
    held: u32,
    other: u32,
    // Whether the other piece is done.
    is_open: AtomicBool,
    has_come: AtomicBool,
    has_run_out: AtomicBool,
}

impl HoldGate {
    /// Holds piece `held` of build `build` until piece `other` of it is done, or for `turns` turns, each of which
    /// yields. So it needs no handle to wait, and ends where nobody does the other piece.
    pub fn new(build: u64, held: u32, other: u32, turns: u64) -> HoldGate {
        HoldGate {
            build,
            turns,
            held,
            other,
            is_open: AtomicBool::new(false),
            has_come: AtomicBool::new(false),
            has_run_out: AtomicBool::new(false),
        }
    }

    /// Whether the held piece has come to the gate.
    pub fn is_holding(&self) -> bool {
        self.has_come.load(Ordering::SeqCst)
    }

    /// Whether the turns ran out before the other piece was done.
    pub fn ran_out(&self) -> bool {
        self.has_run_out.load(Ordering::SeqCst)
    }

    // Yields until the other piece is done, at most `turns` times, and says whether it is.
    fn opens(&self) -> bool {
        for _ in 0..self.turns {
            if self.is_open.load(Ordering::SeqCst) {
                return true;
            }
            yield_now();
        }
        self.is_open.load(Ordering::SeqCst)
    }
}

impl Gate for HoldGate {
    fn before(&self, build: u64, number: u32) {
        if build == self.build && number == self.held {
            self.has_come.store(true, Ordering::SeqCst);
            if !self.opens() {
                self.has_run_out.store(true, Ordering::SeqCst);
            }
        }
    }

    fn after(&self, build: u64, number: u32) {
        if build == self.build && number == self.other {
            self.is_open.store(true, Ordering::SeqCst);
        }
    }

    fn idle(&self) {
        yield_now();
    }
}

#[cfg(test)]
mod tests {
    use super::*;
    use std::thread::join;

    #[test]
    fn a_piece_is_held_until_the_other_is_done(rt: HostRuntime) {
        let gate = HoldGate::new(1, 0, 1, 1_000_000_000);
        join(&rt, || gate.before(1, 0), || gate.after(1, 1));
        assert!(rt; gate.is_holding());
        assert!(rt; !gate.ran_out());
    }

    #[test]
    fn the_turns_run_out_where_nobody_does_the_other(rt: HostRuntime) {
        let gate = HoldGate::new(1, 0, 1, 3);
        gate.before(1, 1);
        gate.before(2, 0);
        gate.after(2, 1);
        gate.after(1, 0);
        assert!(rt; !gate.is_holding());
        gate.before(1, 0);
        assert!(rt; gate.is_holding());
        assert!(rt; gate.ran_out());
    }
}
