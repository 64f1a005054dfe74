// Three callers in threads.
ghost use Rattle.std.specs.Prelude.{◌≡◌, IfSome};
ghost use Rattle.book_model.specs.State.{State};

use crate::opening::opened;
use crate::requests::advisory;
use book::Entry;
use book_desk::Desk;
use edge_io::{Sink, write_whole};
use osv_prim::Memory;
use pass_desk::{BookLock, BookPass, BoxedBook, PassDesk};
use std::alloc::Global;
use std::sync::{Arc, Wait};
use std::thread::{Threads, join};
use turn_lock::Call;

// How many imports are by a caller.
#[derive(Drop)]
struct CountImports {
    caller: u64,
}

impl Call<BoxedBook> for CountImports {
    type Answer = u64;

    ghost needs = { λ c by h n. Unit {0} };

    ghost does = { λ c by s a t. t ≡ s };

    fn act(self, by: u64, state: &mut BoxedBook) -> u64 {
        let _by = by;
        let mut count: u64 = 0;
        for entry in state.book().entries() {
            if let Entry::Import { by, .. } = entry {
                if *by == self.caller {
                    count = count.saturating_add(1);
                }
            }
        }
        count
    }

    ghost lasts = { λ c by xs ys n m h p le. tt };
}

// A caller that imports the advisory so many times and leaves.
fn importer<R: Wait>(
    rt: &R,
    alloc: Global,
    lock: &BookLock,
    pass: BookPass,
    count: u64,
) -> Option<BookPass>
    requires { pass.lock ≡ lock.now }
    ensures { IfSome result (λ p. p.lock ≡ lock.now) }
{
    let advisory = advisory(alloc)?;
    let mut desk = PassDesk::enter(rt, lock, pass).ok()?;
    for _ in 0..count {
        let more = Arc::try_clone(&advisory).ok()?;
        let _place = desk.import(more).ok()?;
    }
    Some(desk.leave())
}

// Two of them in threads, and the pass that has seen what both have.
fn two<R: Threads + Wait + Sync>(
    rt: &R,
    alloc: Global,
    lock: &BookLock,
    pass: BookPass,
    count: u64,
) -> Option<BookPass>
    requires { pass.lock ≡ lock.now }
    ensures { IfSome result (λ p. p.lock ≡ lock.now) }
{
    let (a, b) = lock.split(pass);
    let (a, b) = join(
        rt,
        || -> Option<BookPass>
            requires { a.lock ≡ lock.now }
            ensures { IfSome result (λ p. p.lock ≡ lock.entry.now) }
        { importer(rt, alloc, lock, a, count) },
        || -> Option<BookPass>
            requires { b.lock ≡ lock.now }
            ensures { IfSome result (λ p. p.lock ≡ lock.entry.now) }
        { importer(rt, alloc, lock, b, count) },
    );
    Some(lock.join(a?, b?))
}

// Two and one.
fn three<R: Threads + Wait + Sync>(
    rt: &R,
    alloc: Global,
    lock: &BookLock,
    pass: BookPass,
    count: u64,
) -> Option<BookPass>
    requires { pass.lock ≡ lock.now }
    ensures { IfSome result (λ p. p.lock ≡ lock.now) }
{
    let (a, b) = lock.split(pass);
    let (a, b) = join(
        rt,
        || -> Option<BookPass>
            requires { a.lock ≡ lock.now }
            ensures { IfSome result (λ p. p.lock ≡ lock.entry.now) }
        { two(rt, alloc, lock, a, count) },
        || -> Option<BookPass>
            requires { b.lock ≡ lock.now }
            ensures { IfSome result (λ p. p.lock ≡ lock.entry.now) }
        { importer(rt, alloc, lock, b, count) },
    );
    Some(lock.join(a?, b?))
}

/// Three callers in threads, each of which imports the advisory so many times: how many entries the pass has seen that
/// theirs were joined into, and how many imports are by each.
pub fn imported<R: Threads + Wait + Sync, K: Sink>(
    rt: &R,
    alloc: Global,
    count: u64,
    sink: &mut K,
) -> Result<(), Memory> {
    let (lock, pass) = opened(alloc)?;
    let Some(mut pass) = three(rt, alloc, &lock, pass, count) else {
        return Err(Memory);
    };
    let seen = pass.point();
    let a = lock.turn_mut(rt, &mut pass, 0, CountImports { caller: 0 });
    let b = lock.turn_mut(rt, &mut pass, 0, CountImports { caller: 1 });
    let c = lock.turn_mut(rt, &mut pass, 0, CountImports { caller: 2 });
    let text = format!(in alloc; "{seen} entries, {a} by 0, {b} by 1, {c} by 2")?;
    let _told = write_whole(sink, text.as_bytes());
    Ok(())
}
