// A helper in a thread of its own.
ghost use Rattle.std.specs.Prelude.{◌≡◌, IfOk};

use crate::build::{import_one, newest, open};
use book::Book;
use book_desk::Desk;
use gate::OpenGate;
use impact_worker::help;
use osv_prim::{Ledger, Memory, Steps};
use pass_desk::{BookLock, BookPass, PassDesk, share};
use settings::Settings;
use std::alloc::Global;
use std::sync::Wait;
use std::sync::atomic::{AtomicBool, Ordering};
use std::thread::{Threads, join, yield_now};

/// The most looks at which the newest snapshot may be another than the one that is waited for.
const MOST_LOOKS: u64 = 10_000_000;

/// A lock over a book with no entry, and a pass.
pub fn opened(alloc: Global) -> Result<(BookLock, BookPass), Memory>
    ensures { IfOk result (λ r. r.1.lock ≡ r.0) }
{
    share(alloc, Book::new(alloc, Settings::default())?)
}

// How many jobs a helper does until it is stopped. None where no caller number is left.
fn helper<R: Wait, L: Ledger>(
    rt: &R,
    alloc: Global,
    lock: &BookLock,
    pass: BookPass,
    stop: &AtomicBool,
    steps: &mut Steps<L>,
) -> Option<u64>
    requires { pass.lock ≡ lock.now }
{
    let mut desk = PassDesk::enter(rt, lock, pass).ok()?;
    Some(help(rt, alloc, &mut desk, &OpenGate, stop, steps))
}

// Waits until the newest snapshot is this one, and says whether it is.
fn is_published<D: Desk>(alloc: Global, desk: &mut D, number: u64) -> Result<bool, Memory> {
    for _ in 0..MOST_LOOKS {
        if newest(alloc, desk)? == number {
            return Ok(true);
        }
        yield_now();
    }
    Ok(false)
}

// Imports an advisory, opens a build and waits for its snapshot, so often. How many snapshots came.
fn open_all<D: Desk>(alloc: Global, desk: &mut D, times: u64) -> Result<u64, Memory> {
    for number in 0..times {
        import_one(alloc, desk, number)?;
        open(desk)?;
        if !is_published(alloc, desk, number.saturating_add(1))? {
            return Ok(number);
        }
    }
    Ok(times)
}

// The same under a pass, which then stops the helper.
fn publisher<R: Wait>(
    rt: &R,
    alloc: Global,
    lock: &BookLock,
    pass: BookPass,
    times: u64,
    stop: &AtomicBool,
) -> Option<u64>
    requires { pass.lock ≡ lock.now }
{
    let came = match PassDesk::enter(rt, lock, pass) {
        Ok(mut desk) => open_all(alloc, &mut desk, times).ok(),
        Err(_) => None,
    };
    stop.store(true, Ordering::SeqCst);
    came
}

// A caller that opens builds and does no job of them, beside a helper: how many jobs that did, and how many
// snapshots came.
fn beside<R: Threads + Wait + Sync, L: Ledger + Send>(
    rt: &R,
    alloc: Global,
    lock: &BookLock,
    pass: BookPass,
    theirs: BookPass,
    times: u64,
    steps: &mut Steps<L>,
) -> (Option<u64>, Option<u64>)
    requires one { pass.lock ≡ lock.now }
    requires other { theirs.lock ≡ lock.now }
{
    let stop = AtomicBool::new(false);
    join(
        rt,
        || -> Option<u64>
            requires { pass.lock ≡ lock.now }
        { helper(rt, alloc, lock, pass, &stop, steps) },
        || -> Option<u64>
            requires { theirs.lock ≡ lock.now }
        { publisher(rt, alloc, lock, theirs, times, &stop) },
    )
}

/// So many builds of a caller beside a helper.
pub fn helped<R: Threads + Wait + Sync, L: Ledger + Send>(
    rt: &R,
    alloc: Global,
    times: u64,
    steps: &mut Steps<L>,
) -> Result<String, Memory> {
    let (lock, pass) = opened(alloc)?;
    let (pass, theirs) = lock.split(pass);
    match beside(rt, alloc, &lock, pass, theirs, times, steps) {
        (Some(did), Some(came)) => Ok(format!(in alloc; "{did} jobs, snapshot {came}")?),
        _ => Err(Memory),
    }
}
