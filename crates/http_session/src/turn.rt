ghost use Rattle.std.specs.Prelude.{◌≡◌, ◌≤◌, false, Some, None};
ghost use Rattle.std.specs.Io.KnownBytes.{prepend_known};
ghost use Rattle.edge_io.specs.Causes.{Rose};
ghost use Rattle.session_model.specs.Ends.{Turn};
ghost use Rattle.session_model.specs.Sessions.{IsWriteFault};
ghost use Rattle.session_model.specs.declared.end.End.TheVariants.{ReadFault};
ghost use Rattle.http_session.specs.Serving.{IsSomeFault, RefusesSo};

use crate::asked::{Asked, read_asked};
use crate::marks::Marks;
use crate::refusal::refusal_of;
use crate::serve::{fail, serve};
use book_desk::Desk;
use edge_io::{Sink, Source};
use gate::Gate;
use http_wire::{Held, Out, WireFault, write_reply};
use osv_prim::{Ledger, Steps};
use osv_record::Buffers;
use session_model::End;
use settings::Settings;
use std::alloc::Global;

/// Reads a request and answers it. None: another may follow.
pub(crate) fn turn<D: Desk, G: Gate, S: Source, K: Sink, L: Ledger>(
    alloc: Global,
    desk: &mut D,
    gate: &G,
    source: &mut S,
    sink: &mut K,
    held: &mut Held,
    out: &mut Out,
    settings: &Settings,
    last: bool,
    marks: &mut Marks,
    buffers: &mut Buffers,
    steps: &mut Steps<L>,
) -> Option<End>
    requires { (D.caller desk.old).settings ≡ settings.now }
    ensures turn { Turn settings.now last (D.caller desk.old) (D.caller desk.new) (prepend_known held.old (S.left source.old)) (K.held sink.old) result
        (S.left source.new) (prepend_known held.new (S.left source.new)) (K.held sink.new) marks.old.points.items marks.new.points.items marks.old.signs.items marks.new.signs.items }
    ensures same { (D.caller desk.new).settings ≡ settings.now }
    ensures more { result ≡ None → last ≡ false }
    ensures read_later { S.faults source.old ≤ S.faults source.new }
    ensures write_later { K.faults sink.old ≤ K.faults sink.new }
    ensures read_fault { result ≡ Some ReadFault → Rose (S.faults source.old) (S.faults source.new) }
    ensures write_fault { IsSomeFault result → Rose (K.faults sink.old) (K.faults sink.new) }
{
    match read_asked(alloc, source, sink, held, settings) {
        Asked::Request(request, come) => {
            serve(
                alloc, desk, gate, sink, out, request, come, settings, last, marks, buffers, steps,
            )
        }
        Asked::Refused(fault) => Some(refuse(alloc, sink, out, fault)),
        Asked::Ended => Some(End::Ended),
        Asked::Truncated => Some(End::Truncated),
        Asked::ReadFault => Some(End::ReadFault),
        Asked::WriteFault { out } => Some(End::WriteFault { out }),
        Asked::Memory => Some(fail(sink)),
    }
}

// Answers a request that can't be read.
fn refuse<K: Sink>(alloc: Global, sink: &mut K, out: &mut Out, fault: WireFault) -> End
    ensures refuses { RefusesSo fault (K.held sink.old) result (K.held sink.new) }
    ensures later { K.faults sink.old ≤ K.faults sink.new }
    ensures fault { IsWriteFault result → Rose (K.faults sink.old) (K.faults sink.new) }
{
    let Ok(reply) = refusal_of(alloc, fault) else {
        return fail(sink);
    };
    match write_reply(sink, out, reply) {
        Ok(()) => End::Refused(fault),
        Err(fault) => End::WriteFault { out: fault.out },
    }
}
