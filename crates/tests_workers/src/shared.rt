// Two callers that share the pieces of one build.
ghost use Rattle.std.specs.Prelude.{◌≡◌, ◌≤◌};

use crate::build::{import_ranges, newest, open};
use crate::helped::opened;
use gate::{HoldGate, OpenGate};
use impact_worker::drain;
use osv_prim::{Ledger, Memory, Steps, Unkept};
use pass_desk::{BookLock, BookPass, PassDesk};
use std::sync::Wait;
use std::sync::ledger::Blank;
use std::thread::{Threads, join};

/// For how many turns the first piece is held where nobody does the second one.
const MOST_TURNS: u64 = 10_000_000;

/// More jobs than a build here has.
const MOST_JOBS: u64 = 1_000;

fn drained_in<L: Ledger, R: Wait>(
    host: &HostRuntime,
    rt: &R,
    blank: Blank,
    lock: &BookLock,
    pass: BookPass,
    gate: &HoldGate,
) -> Option<u64>
    requires lock { pass.lock ≡ lock.now }
    requires name { blank.name ≡ L.name }
    requires parts { blank.parts ≡ L.parts }
    requires two { 2 ≤ blank.parts }
{
    let mut steps = Steps::<L>::start(host, blank);
    let mut desk = PassDesk::enter(rt, lock, pass).ok()?;
    Some(drain(host.alloc(), &mut desk, gate, MOST_JOBS, &mut steps).did)
}

// How many jobs a caller does that enters by a pass. None where no caller number is left.
fn drained<R: Wait>(
    host: &HostRuntime,
    rt: &R,
    lock: &BookLock,
    pass: BookPass,
    gate: &HoldGate,
) -> Option<u64>
    requires { pass.lock ≡ lock.now }
{
    drained_in::<Unkept, R>(host, rt, Blank::new(2), lock, pass, gate)
}

// Both callers in threads of their own.
fn both<R: Threads + Wait + Sync>(
    host: &HostRuntime,
    rt: &R,
    lock: &BookLock,
    pass: BookPass,
    theirs: BookPass,
    gate: &HoldGate,
) -> (Option<u64>, Option<u64>)
    requires one { pass.lock ≡ lock.now }
    requires other { theirs.lock ≡ lock.now }
{
    join(
        rt,
        || -> Option<u64>
            requires { pass.lock ≡ lock.now }
        { drained(host, rt, lock, pass, gate) },
        || -> Option<u64>
            requires { theirs.lock ≡ lock.now }
        { drained(host, rt, lock, theirs, gate) },
    )
}

/// A build of so many pieces, whose plan is made before two callers share the rest.
pub fn shared<R: Threads + Wait + Sync, L: Ledger>(
    host: &HostRuntime,
    rt: &R,
    count: u64,
    steps: &mut Steps<L>,
) -> Result<String, Memory> {
    let alloc = host.alloc();
    let (lock, pass) = opened(alloc)?;
    let (pass, one) = lock.split(pass);
    let (pass, other) = lock.split(pass);
    let Ok(mut desk) = PassDesk::enter(rt, &lock, pass) else {
        return Err(Memory);
    };
    import_ranges(alloc, &mut desk, count)?;
    open(&mut desk)?;
    drain(alloc, &mut desk, &OpenGate, 1, steps);
    let gate = HoldGate::new(1, 0, 1, MOST_TURNS);
    let (Some(first), Some(second)) = both(host, rt, &lock, one, other, &gate) else {
        return Err(Memory);
    };
    let (each, all) = (0 < first && 0 < second, first.saturating_add(second));
    let ran_out = gate.ran_out();
    let number = newest(alloc, &mut desk)?;
    Ok(format!(in alloc;
        "{all} jobs, each did some: {each}, the turns ran out: {ran_out}, snapshot {number}"
    )?)
}
