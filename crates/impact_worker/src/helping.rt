ghost use Rattle.impact_worker.specs.Working.{Helped};

use crate::one::{Came, work_once};
use book_desk::Desk;
use gate::Gate;
use osv_prim::{Ledger, Steps};
use std::alloc::Global;
use std::sync::Wait;
use std::sync::atomic::{AtomicBool, Ordering};

/// Asks its desk for jobs and does them until `stop` is set, and gives how many were handed in, at most
/// 2^64 - 1. Where there is none, or no memory for one, it calls the gate's `idle` and asks again.
pub fn help<D: Desk, G: Gate, L: Ledger, R: Wait>(
    rt: &R,
    alloc: Global,
    desk: &mut D,
    gate: &G,
    stop: &AtomicBool,
    steps: &mut Steps<L>,
) -> u64
    ensures { Helped result (D.caller desk.old) (D.caller desk.new) }
{
    let _known = desk.point();
    let mut did: u64 = 0;
    for _ in rt.forever() {
        if stop.load(Ordering::SeqCst) {
            return did;
        }
        match work_once(alloc, desk, gate, steps) {
            Came::Did => did = did.saturating_add(1),
            Came::Nothing { .. } => gate.idle(),
            Came::Memory => gate.idle(),
        }
    }
    unreachable!()
}
