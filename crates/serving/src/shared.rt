// What the lanes and helpers of a service share.
ghost use Rattle.std.specs.Prelude.{◌≡◌, ◌≤◌};
ghost use Rattle.serving.specs.Serving.{HasEnded};
ghost use Rattle.serving.specs.Sharing.{Suits};

use crate::lane::{serve_all, turn_away};
use gate::Gate;
use impact_worker::help;
use listeners::Listener;
use osv_prim::{Ledger, Steps, Unkept};
use pass_desk::{BookLock, BookPass, PassDesk};
use settings::Settings;
use std::alloc::Global;
use std::sync::Wait;
use std::sync::atomic::{AtomicBool, AtomicU64, Ordering};
use std::sync::ledger::Blank;

/// What all of them share. `stop` is set once no lane is left, which `running` counts.
#[derive(Drop)]
pub(crate) struct Shared<'a, R, G> {
    pub(crate) rt: &'a R,
    pub(crate) host: &'a HostRuntime,
    pub(crate) alloc: Global,
    pub(crate) lock: &'a BookLock,
    pub(crate) settings: &'a Settings,
    pub(crate) gate: &'a G,
    // How many helpers there are to be.
    pub(crate) helpers: u64,
    pub(crate) stop: &'a AtomicBool,
    pub(crate) running: &'a AtomicU64,
}

/// One lane, by a desk of its own. Where no caller number is left, its connections are closed.
pub(crate) fn run_lane<L: Listener, G: Gate, R: Wait>(
    shared: &Shared<'_, R, G>,
    pass: BookPass,
    listener: &mut L,
)
    requires lock { pass.lock ≡ shared.now.lock.now }
    requires suits { Suits shared.now }
    ensures { HasEnded (L.faults listener.old) (L.faults listener.new) (L.closed listener.old) (L.closed listener.new) }
{
    run_counted::<L, G, R, Unkept>(shared, pass, listener, Blank::new(2));
    if shared.running.fetch_sub(1, Ordering::SeqCst) == 1 {
        shared.stop.store(true, Ordering::SeqCst);
    }
}

// The same, with its steps counted in a new ledger.
fn run_counted<L: Listener, G: Gate, R: Wait, C: Ledger>(
    shared: &Shared<'_, R, G>,
    pass: BookPass,
    listener: &mut L,
    blank: Blank,
)
    requires lock { pass.lock ≡ shared.now.lock.now }
    requires suits { Suits shared.now }
    requires name { blank.name ≡ C.name }
    requires parts { blank.parts ≡ C.parts }
    requires two { 2 ≤ blank.parts }
    ensures { HasEnded (L.faults listener.old) (L.faults listener.new) (L.closed listener.old) (L.closed listener.new) }
{
    let mut steps = Steps::<C>::start(shared.host, blank);
    match PassDesk::enter(shared.rt, shared.lock, pass) {
        Ok(mut desk) => serve_all(
            shared.rt,
            shared.alloc,
            &mut desk,
            listener,
            shared.gate,
            shared.settings,
            shared.helpers,
            &mut steps,
        ),
        Err(_) => turn_away(shared.rt, listener),
    }
}

/// One helper, by a desk of its own, until no lane is left.
pub(crate) fn run_helper<G: Gate, R: Wait>(shared: &Shared<'_, R, G>, pass: BookPass)
    requires lock { pass.lock ≡ shared.now.lock.now }
{
    help_counted::<G, R, Unkept>(shared, pass, Blank::new(2));
}

fn help_counted<G: Gate, R: Wait, C: Ledger>(
    shared: &Shared<'_, R, G>,
    pass: BookPass,
    blank: Blank,
)
    requires lock { pass.lock ≡ shared.now.lock.now }
    requires name { blank.name ≡ C.name }
    requires parts { blank.parts ≡ C.parts }
    requires two { 2 ≤ blank.parts }
{
    let mut steps = Steps::<C>::start(shared.host, blank);
    if let Ok(mut desk) = PassDesk::enter(shared.rt, shared.lock, pass) {
        let _did = help(
            shared.rt,
            shared.alloc,
            &mut desk,
            shared.gate,
            shared.stop,
            &mut steps,
        );
    }
}
