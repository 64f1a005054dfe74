// A lane: connections that are served one after another, and jobs between them.
ghost use Rattle.std.specs.Prelude.{◌≡◌, ◌≤◌};
ghost use Rattle.serving.specs.Serving.{HasEnded, Serves, jobs_between};

use book_desk::Desk;
use edge_io::{Sink, Source};
use gate::Gate;
use http_session::serve_session;
use impact_worker::drain;
use listeners::Listener;
use osv_prim::{Ledger, Steps};
use session_model::laws::{a_run_is_told_by_its_points, a_session_is_a_run};
use settings::Settings;
use std::alloc::Global;
use std::sync::Wait;

/// How many accepts may fail in a lane.
pub const MOST_FAILED: u64 = 100;

/// How many jobs a lane does between two connections, at most, where there is no helper.
pub const MOST_JOBS: u64 = 1_000_000;

/// How many it does where there are helpers. More would let the next connection wait for as long.
pub const FEW_JOBS: u64 = 1;

/// Accepts connections and serves each, until none will come or too many accepts have failed.
pub(crate) fn serve_all<D: Desk, L: Listener, G: Gate, C: Ledger, R: Wait>(
    rt: &R,
    alloc: Global,
    desk: &mut D,
    listener: &mut L,
    gate: &G,
    settings: &Settings,
    helpers: u64,
    steps: &mut Steps<C>,
)
    requires some { 1 ≤ settings.now.requests }
    requires same { (D.caller desk.old).settings ≡ settings.now }
    ensures { HasEnded (L.faults listener.old) (L.faults listener.new) (L.closed listener.old) (L.closed listener.new) }
{
    let mut failed = 0;
    for _ in rt.forever() {
        match listener.accept() {
            Ok(Some((mut source, mut sink))) => {
                serve_connection(
                    alloc,
                    desk,
                    gate,
                    &mut source,
                    &mut sink,
                    settings,
                    helpers,
                    steps,
                );
            }
            Ok(None) => return,
            Err(_) => failed += 1,
        }
        if failed >= MOST_FAILED {
            return;
        }
    }
    unreachable!()
}

/// Accepts connections and closes each, until none will come or too many accepts have failed.
pub(crate) fn turn_away<L: Listener, R: Wait>(rt: &R, listener: &mut L)
    ensures { HasEnded (L.faults listener.old) (L.faults listener.new) (L.closed listener.old) (L.closed listener.new) }
{
    let mut failed = 0;
    for _ in rt.forever() {
        match listener.accept() {
            Ok(Some(_)) => {}
            Ok(None) => return,
            Err(_) => failed += 1,
        }
        if failed >= MOST_FAILED {
            return;
        }
    }
    unreachable!()
}

// How many jobs a lane does between two connections, at most, beside so many helpers.
fn jobs_between(helpers: u64) -> u64
    ensures { result ≡ jobs_between helpers }
{
    if helpers == 0 { MOST_JOBS } else { FEW_JOBS }
}

/// Serves a connection, and does jobs that are there behind it: all of them, or one where helpers do them too.
///
/// The settings are the desk's.
pub fn serve_connection<D: Desk, G: Gate, S: Source, K: Sink, C: Ledger>(
    alloc: Global,
    desk: &mut D,
    gate: &G,
    source: &mut S,
    sink: &mut K,
    settings: &Settings,
    helpers: u64,
    steps: &mut Steps<C>,
)
    requires some { 1 ≤ settings.now.requests }
    requires same { (D.caller desk.old).settings ≡ settings.now }
    ensures serves { Serves settings.now helpers (D.caller desk.old) (D.caller desk.new) (S.left source.old) (S.left source.new) (K.held sink.old) (K.held sink.new) }
    ensures same { (D.caller desk.new).settings ≡ settings.now }
{
    let _known = desk.point();
    a_session_is_a_run();
    a_run_is_told_by_its_points();
    let _session = serve_session(alloc, desk, gate, source, sink, settings, steps);
    let _drained = drain(alloc, desk, gate, jobs_between(helpers), steps);
}
