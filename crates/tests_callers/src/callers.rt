// Callers in threads.
ghost use Rattle.std.specs.Prelude.{◌≡◌, ◌≤◌, IfSome};

use crate::entries::{Read, Seen, has_own, is_legal};
use crate::log::Log;
use crate::replay::replayed;
use book::Book;
use book_desk::Desk;
use osv_prim::{Ledger, Memory, Steps, Unkept};
use pass_desk::{BookLock, BookPass, PassDesk, share};
use settings::Settings;
use std::alloc::Global;
use std::sync::Wait;
use std::sync::ledger::Blank;
use std::thread;
use std::thread::Threads;

/// How many callers there are, how many steps each of them takes, and from which seed.
#[derive(Clone, Copy, Debug)]
pub struct Plan {
    pub callers: u64,
    pub steps: u64,
    pub seed: u64,
}

fn run_in<L: Ledger, R: Wait>(
    host: &HostRuntime,
    blank: Blank,
    desk: PassDesk<'_, R>,
    plan: Plan,
) -> Result<Log, Memory>
    requires name { blank.name ≡ L.name }
    requires parts { blank.parts ≡ L.parts }
    requires two { 2 ≤ blank.parts }
{
    let mut desk = desk;
    let mut steps = Steps::<L>::start(host, blank);
    let me = desk.me();
    let mut log = Log::new(host.alloc(), me, plan.seed ^ me);
    for _ in 0..plan.steps {
        log.step(host.alloc(), &mut desk, &mut steps)?;
    }
    Ok(log)
}

// What a caller is told by its steps.
fn run<R: Wait>(host: &HostRuntime, desk: PassDesk<'_, R>, plan: Plan) -> Result<Log, Memory> {
    run_in::<Unkept, R>(host, Blank::new(2), desk, plan)
}

// So many callers, and a pass beside them. None is want of memory, or of numbers.
fn enter_all<'a, R: Wait>(
    rt: &'a R,
    alloc: Global,
    lock: &'a BookLock,
    pass: BookPass,
    count: u64,
) -> Option<(BookPass, Vec<PassDesk<'a, R>>)>
    requires { pass.lock ≡ lock.now }
    ensures { IfSome result (λ r. r.0.lock ≡ lock.now) }
{
    let mut mine = pass;
    let mut callers = Vec::new(alloc);
    for _ in 0..count {
        let (kept, theirs) = lock.split(mine);
        mine = kept;
        callers.push(PassDesk::enter(rt, lock, theirs).ok()?).ok()?;
    }
    Some((mine, callers))
}

fn verdict<L: Ledger>(
    alloc: Global,
    entries: &[Seen],
    logs: &[Result<Log, Memory>],
    plan: Plan,
    steps: &mut Steps<L>,
) -> Result<&'static str, Memory> {
    if !is_legal(entries) {
        return Ok("the history is not legal");
    }
    let all = replayed(alloc, entries, steps)?;
    let mut own: usize = 0;
    for log in logs {
        let Ok(log) = log else {
            return Err(Memory);
        };
        own = own.saturating_add(log.told.len());
        if log.is_lost {
            return Ok("an answer came that may not come");
        }
        if (log.looks.len() as u64) < plan.steps / 4 || (all.len() as u64) < plan.steps / 25 {
            return Ok("there were few looks, or few publications");
        }
        if !has_own(entries, log.me, log.told.as_slice()) {
            return Ok("a caller's own entries are others than it was told");
        }
        for look in &log.looks {
            if all.get(look.number as usize) != Some(&look.digest) {
                return Ok("a snapshot is another than in the replay");
            }
        }
    }
    if own != entries.len() {
        return Ok("there are entries of nobody");
    }
    Ok(
        "the history is legal, each caller's own entries are as told, and snapshots are as in a replay",
    )
}

/// Runs the callers, and says whether the history is what they were told. None is want of memory.
pub fn compare<R: Threads + Wait + Sync, L: Ledger>(
    host: &HostRuntime,
    rt: &R,
    plan: Plan,
    steps: &mut Steps<L>,
) -> Option<&'static str> {
    let alloc = host.alloc();
    let book = Book::new(alloc, Settings::default()).ok()?;
    let (lock, pass) = share(alloc, book).ok()?;
    let (mut pass, callers) = enter_all(rt, alloc, &lock, pass, plan.callers)?;
    let logs = thread::map_vec(
        rt,
        callers,
        &|desk: PassDesk<'_, R>| { run(host, desk, plan) },
    )
    .ok()?;
    let entries = lock.turn_mut(rt, &mut pass, 0, Read { alloc }).ok()?;
    verdict(alloc, entries.as_slice(), logs.as_slice(), plan, steps).ok()
}
