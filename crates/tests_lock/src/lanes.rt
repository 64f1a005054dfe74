// Callers in threads.
ghost use Rattle.std.specs.Prelude.{◌≡◌, IfSome};

use crate::caller::{Caller, enter};
use crate::calls::CountEntries;
use crate::journal::Journal;
use std::alloc::Global;
use std::sync::Wait;
use std::thread;
use std::thread::Threads;
use turn_lock::{Pass, TurnLock};

/// How many callers there are, and what each of them does.
#[derive(Clone, Copy, Debug)]
pub struct Lanes {
    pub turns: u64,
    pub callers: usize,
    pub yields: u32,
}

// Whether the entries of each caller are as many as its turns, and there are no others.
fn has_all<R: Wait>(rt: &R, lock: &TurnLock<Journal>, mut pass: Pass<Journal>, lanes: Lanes) -> bool
    requires { pass.lock ≡ lock.now }
{
    let mut all: u64 = 0;
    for owner in 0..lanes.callers as u64 {
        let found = lock.turn_mut(rt, &mut pass, 0, CountEntries { owner });
        if found as u64 != lanes.turns {
            return false;
        }
        all = all.saturating_add(lanes.turns);
    }
    pass.point() == all
}

// So many callers, each with a number of its own, and the pass. None is want of memory, or of numbers.
fn enter_all<'a, R: Wait>(
    rt: &'a R,
    lock: &'a TurnLock<Journal>,
    pass: Pass<Journal>,
    alloc: Global,
    count: usize,
) -> Option<(Pass<Journal>, Vec<Caller<'a, R>>)>
    requires { pass.lock ≡ lock.now }
    ensures { IfSome result (λ r. r.0.lock ≡ lock.now) }
{
    let mut mine = pass;
    let mut callers = Vec::with_capacity(alloc, count).ok()?;
    for _ in 0..count {
        let (kept, theirs) = lock.split(mine);
        mine = kept;
        callers.push(enter(rt, lock, theirs)?).ok()?;
    }
    Some((mine, callers))
}

/// Runs the callers, each in a thread of its own, and says whether the lock's journal has what they were told. None is
/// want of memory.
pub fn run<R: Threads + Wait + Sync>(rt: &R, alloc: Global, lanes: Lanes) -> Option<bool> {
    let room = lanes.callers.saturating_mul(lanes.turns as usize);
    let journal = Journal::with_room(alloc, room).ok()?;
    let (lock, pass) = TurnLock::start(alloc, journal).ok()?;
    let (pass, callers) = enter_all(rt, &lock, pass, alloc, lanes.callers)?;
    let told = thread::map_vec(
        rt,
        callers,
        &|mut caller: Caller<'_, R>| { caller.add_all(lanes.turns, lanes.yields) },
    )
    .ok()?;
    Some(told.iter().all(|as_told| *as_told) && has_all(rt, &lock, pass, lanes))
}
