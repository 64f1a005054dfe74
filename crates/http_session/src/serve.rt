ghost use Rattle.std.specs.Prelude.{◌≡◌, ◌≤◌, false};
ghost use Rattle.desk_answers.specs.Streams.{IsRead};
ghost use Rattle.edge_io.specs.Causes.{Rose};
ghost use Rattle.http_wire.specs.Replies.{HasPhrase, spelled};
ghost use Rattle.http_wire.specs.declared.request.Request.{Request};
ghost use Rattle.session_model.specs.Ends.{GoesOn, Writes};
ghost use Rattle.session_model.specs.Sessions.{IsWriteFault};
ghost use Rattle.http_session.specs.Serving.{Fails, IsSomeFault, Serves};

use crate::marks::{Marks, make_room, mark};
use book_desk::Desk;
use desk_answers::answer;
use edge_io::Sink;
use gate::Gate;
use http_wire::{Out, Reply, Request, write_memory, write_reply};
use osv_prim::{Ledger, Steps};
use osv_record::Buffers;
use session_model::End;
use settings::Settings;
use std::alloc::Global;
use stream_body::Commits;

/// Answers a request that was read, and marks its point; None: another may follow. The room for the point is
/// taken before the book is asked, so a request that changed the book has its point.
pub(crate) fn serve<D: Desk, G: Gate, K: Sink, L: Ledger>(
    alloc: Global,
    desk: &mut D,
    gate: &G,
    sink: &mut K,
    out: &mut Out,
    request: Request,
    come: Option<Commits>,
    settings: &Settings,
    last: bool,
    marks: &mut Marks,
    buffers: &mut Buffers,
    steps: &mut Steps<L>,
) -> Option<End>
    requires same { (D.caller desk.old).settings ≡ settings.now }
    requires read { (q : Request) × IsRead settings.now.commits request come q }
    ensures serves { (q : Request) → IsRead settings.now.commits request come q → Serves last (D.caller desk.old) (D.caller desk.new) q (K.held sink.old) result (K.held sink.new) marks.old.points.items marks.new.points.items marks.old.signs.items marks.new.signs.items }
    ensures same { (D.caller desk.new).settings ≡ settings.now }
    ensures more { result ≡ None → last ≡ false }
    ensures later { K.faults sink.old ≤ K.faults sink.new }
    ensures fault { IsSomeFault result → Rose (K.faults sink.old) (K.faults sink.new) }
{
    let _known = desk.point();
    let Ok(()) = make_room(marks) else {
        return Some(fail(sink));
    };
    let close = request.close;
    match answer(
        alloc,
        desk,
        gate,
        request,
        come,
        close || last,
        settings,
        buffers,
        out,
        steps,
    ) {
        Ok(answered) => {
            mark(marks, desk.point(), answered.sign);
            send(sink, out, answered.reply, close, last)
        }
        Err(_) => Some(fail(sink)),
    }
}

// Writes the reply to a request that asks for close or not.
fn send<K: Sink>(sink: &mut K, out: &mut Out, reply: Reply, close: bool, last: bool) -> Option<End>
    requires { HasPhrase reply.status }
    ensures goes { GoesOn close last result }
    ensures writes { Writes (K.held sink.old) (spelled reply) result (K.held sink.new) }
    ensures more { result ≡ None → last ≡ false }
    ensures later { K.faults sink.old ≤ K.faults sink.new }
    ensures fault { IsSomeFault result → Rose (K.faults sink.old) (K.faults sink.new) }
{
    match write_reply(sink, out, reply) {
        Ok(()) => behind(close, last),
        Err(fault) => Some(End::WriteFault { out: fault.out }),
    }
}

// How the session goes on behind a reply that was written.
fn behind(close: bool, last: bool) -> Option<End>
    ensures goes { GoesOn close last result }
    ensures more { result ≡ None → last ≡ false }
    ensures no_fault { IsSomeFault result → ⊥ }
{
    if close {
        return Some(End::Asked);
    }
    if last { Some(End::Served) } else { None }
}

/// Ends a session that found no memory.
pub(crate) fn fail<K: Sink>(sink: &mut K) -> End
    ensures fails { Fails (K.held sink.old) result (K.held sink.new) }
    ensures later { K.faults sink.old ≤ K.faults sink.new }
    ensures fault { IsWriteFault result → Rose (K.faults sink.old) (K.faults sink.new) }
{
    match write_memory(sink) {
        Ok(()) => End::Memory,
        Err(fault) => End::WriteFault { out: fault.out },
    }
}
