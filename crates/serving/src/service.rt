ghost use Rattle.std.specs.Prelude.{◌≡◌, ◌≤◌, OnOk};
ghost use Rattle.settings.specs.Ranges.{AreInRange};
ghost use Rattle.serving.specs.Serving.{HasEnded};
ghost use Rattle.serving.specs.Sharing.{Suits};

use crate::shared::{Shared, run_helper, run_lane};
use book::Book;
use gate::Gate;
use listeners::Listener;
use osv_prim::Memory;
use pass_desk::{BookPass, share};
use settings::Settings;
use std::alloc::Global;
use std::sync::Wait;
use std::sync::atomic::{AtomicBool, AtomicU64, Ordering};
use std::thread;
use std::thread::{Scope, Threads};

/// How many threads serve connections, and how many do the jobs of publications beside them.
#[derive(Clone, Copy, Debug, PartialEq, Eq)]
pub struct Crew {
    pub lanes: u64,
    pub helpers: u64,
}

/// Serves the connections of a listener that is open, over a new book, until all lanes have ended. The first lane runs in
/// the calling thread and uses the listener itself; one that could not be started is left out. Only memory can fail, before
/// the first connection.
///
/// `host` is the same runtime as `rt`: a counter of steps takes it.
pub fn serve<L: Listener, G: Gate, R: Threads + Wait + Sync>(
    rt: &R,
    host: &HostRuntime,
    alloc: Global,
    settings: &Settings,
    crew: Crew,
    listener: &mut L,
    gate: &G,
) -> Result<(), Memory>
    requires { AreInRange settings.now }
    ensures { OnOk result (HasEnded (L.faults listener.old) (L.faults listener.new) (L.closed listener.old) (L.closed listener.new)) }
{
    let Ok(book) = Book::new(alloc, *settings) else {
        return Err(Memory);
    };
    let Ok((lock, pass)) = share(alloc, book) else {
        return Err(Memory);
    };
    let (stop, running) = (AtomicBool::new(false), AtomicU64::new(1));
    let shared = &Shared {
        rt,
        host,
        alloc,
        lock: &lock,
        settings,
        gate,
        helpers: crew.helpers,
        stop: &stop,
        running: &running,
    };
    run_all(shared, pass, crew, listener);
    Ok(())
}

// Runs all lanes and helpers, the first lane in this thread, and comes back once each of them has ended.
fn run_all<L: Listener, G: Gate, R: Threads + Wait + Sync>(
    shared: &Shared<'_, R, G>,
    pass: BookPass,
    crew: Crew,
    listener: &mut L,
)
    requires lock { pass.lock ≡ shared.now.lock.now }
    requires suits { Suits shared.now }
    ensures { HasEnded (L.faults listener.old) (L.faults listener.new) (L.closed listener.old) (L.closed listener.new) }
{
    let _listener = thread::scope(
        thread::scope_env(),
        shared.rt,
        move |scope| -> &mut L
            requires lock { pass.lock ≡ shared.now.lock.now }
            requires suits { Suits shared.now }
            ensures same { result.ghost_name ≡ listener.entry.ghost_name }
            ensures ended { HasEnded (L.faults listener.entry.now) (L.faults result.now) (L.closed listener.entry.now) (L.closed result.now) }
        {
            let pass = start_helpers(scope, shared, pass, crew.helpers);
            let pass = start_lanes(scope, shared, pass, crew.lanes, listener);
            run_lane(shared, pass, listener);
            listener
        },
    );
}

// Starts so many helpers, where threads can be made, and gives the pass back.
fn start_helpers<'s, 'a, E, G: Gate, R: Threads + Wait + Sync>(
    scope: &'s Scope<'s, E>,
    shared: &'s Shared<'a, R, G>,
    pass: BookPass,
    count: u64,
) -> BookPass
    requires { pass.lock ≡ shared.now.lock.now }
    ensures { result.lock ≡ shared.now.lock.now }
{
    let mut mine = pass;
    for _ in 0..count {
        let (kept, theirs) = shared.lock.split(mine);
        mine = kept;
        let _ = scope.spawn(
            move ||
                requires { theirs.lock ≡ shared.now.lock.now }
            { run_helper(shared, theirs) },
        );
    }
    mine
}

// Starts all lanes but the first, where the listener has one more and a thread can be made, and gives the pass back.
fn start_lanes<'s, 'a, E, L: Listener + 's, G: Gate, R: Threads + Wait + Sync>(
    scope: &'s Scope<'s, E>,
    shared: &'s Shared<'a, R, G>,
    pass: BookPass,
    count: u64,
    listener: &mut L,
) -> BookPass
    requires lock { pass.lock ≡ shared.now.lock.now }
    requires suits { Suits shared.now }
    ensures lock { result.lock ≡ shared.now.lock.now }
    ensures faults { L.faults listener.old ≤ L.faults listener.new }
    ensures closed { L.closed listener.old ≤ L.closed listener.new }
{
    let mut mine = pass;
    for _ in 1..count {
        let (kept, theirs) = shared.lock.split(mine);
        mine = kept;
        let Ok(mut lane) = listener.lane() else {
            continue;
        };
        shared.running.fetch_add(1, Ordering::SeqCst);
        let started = scope.spawn(
            move ||
                requires lock { theirs.lock ≡ shared.now.lock.now }
                requires suits { Suits shared.now }
            { run_lane(shared, theirs, &mut lane) },
        );
        if started.is_err() {
            shared.running.fetch_sub(1, Ordering::SeqCst);
        }
    }
    mine
}
