// Sessions of one caller.
ghost use Rattle.std.specs.Prelude.{◌≡◌};
ghost use Rattle.settings.specs.Ranges.{default_settings};

use crate::opening::{entered, opened};
use crate::requests::requests;
use book_desk::Desk;
use desks::OwnDesk;
use edge_io::{CalmSource, Sink, Source};
use gate::OpenGate;
use http_session::serve_session;
use osv_prim::{Ledger, Memory, Steps};
use settings::Settings;
use std::alloc::Global;
use std::sync::Wait;

/// Serves a session of the requests that a source gives.
pub fn serve<D: Desk, S: Source, K: Sink, L: Ledger>(
    alloc: Global,
    desk: &mut D,
    source: &mut S,
    sink: &mut K,
    steps: &mut Steps<L>,
)
    requires { (D.caller desk.old).settings ≡ default_settings }
    ensures lock { (D.caller desk.new).lock ≡ (D.caller desk.old).lock }
    ensures settings { (D.caller desk.new).settings ≡ default_settings }
{
    let _known = desk.point();
    let settings = Settings::default();
    let _end = serve_session(alloc, desk, &OpenGate, source, sink, &settings, steps);
}

/// The same of these requests.
pub fn serve_all<D: Desk, K: Sink, L: Ledger>(
    alloc: Global,
    desk: &mut D,
    names: &str,
    sink: &mut K,
    steps: &mut Steps<L>,
) -> Result<(), Memory>
    requires { (D.caller desk.old).settings ≡ default_settings }
    ensures { (D.caller desk.new).lock ≡ (D.caller desk.old).lock }
{
    let mut source = CalmSource::new(requests(alloc, names)?);
    serve(alloc, desk, &mut source, sink, steps);
    Ok(())
}

/// One caller of a book under a lock.
pub fn lone<R: Wait, K: Sink, L: Ledger>(
    rt: &R,
    alloc: Global,
    names: &str,
    sink: &mut K,
    steps: &mut Steps<L>,
) -> Result<(), Memory> {
    let (lock, pass) = opened(alloc)?;
    let mut desk = entered(rt, &lock, pass)?;
    serve_all(alloc, &mut desk, names, sink, steps)
}

/// One caller of a book of its own.
pub fn own<K: Sink, L: Ledger>(
    alloc: Global,
    names: &str,
    sink: &mut K,
    steps: &mut Steps<L>,
) -> Result<(), Memory> {
    let mut desk = OwnDesk::new(alloc, Settings::default())?;
    serve_all(alloc, &mut desk, names, sink, steps)
}
