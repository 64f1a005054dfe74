ghost use Rattle.std.specs.Prelude.{◌≡◌, ◌≤◌, [], Some, IfOk};
ghost use Rattle.edge_io.specs.Causes.{Rose};
ghost use Rattle.session_model.specs.Sessions.{IsWriteFault, Session};
ghost use Rattle.session_model.specs.declared.end.End.TheVariants.{ReadFault};

use crate::marks::Marks;
use crate::serve::fail;
use crate::turn::turn;
use book_desk::Desk;
use edge_io::{Sink, Source};
use gate::Gate;
use http_wire::{Held, Out};
use osv_prim::{Ledger, Memory, Steps};
use osv_record::Buffers;
use session_model::{End, SessionEnd};
use settings::Settings;
use std::alloc::Global;

/// Reads the requests of a connection (RFC 9112, section 9) and answers each over the desk, until one asks for
/// close, as many as the settings have are answered, one is refused that no other can follow, or the source
/// ends. The settings are the desk's. The gate's hooks stand round each job of a publication.
///
/// After a write fault nothing more is written. Where a request finds no memory, the reply of such a server
/// is written and the session ends; an import has then entered nothing, and a publication may have come.
pub fn serve_session<D: Desk, G: Gate, S: Source, K: Sink, L: Ledger>(
    alloc: Global,
    desk: &mut D,
    gate: &G,
    source: &mut S,
    sink: &mut K,
    settings: &Settings,
    steps: &mut Steps<L>,
) -> SessionEnd
    requires some { 1 ≤ settings.now.requests }
    requires same { (D.caller desk.old).settings ≡ settings.now }

    // The session: its requests one after another, each with its point, its sign and its reply.
    ensures session { Session settings.now (D.caller desk.old) (D.caller desk.new) (S.left source.old) (S.left source.new) (K.held sink.old) (K.held sink.new) result.points.items result.signs.items result.end }

    // A fault comes only where one rose in this call.
    ensures read_later { S.faults source.old ≤ S.faults source.new }
    ensures write_later { K.faults sink.old ≤ K.faults sink.new }
    ensures read_fault { result.end ≡ ReadFault → Rose (S.faults source.old) (S.faults source.new) }
    ensures write_fault { IsWriteFault result.end → Rose (K.faults sink.old) (K.faults sink.new) }
{
    let mut marks = Marks {
        points: Vec::new(alloc),
        signs: Vec::new(alloc),
    };
    let end = serve_from(alloc, desk, gate, source, sink, settings, &mut marks, steps);
    SessionEnd {
        points: marks.points,
        signs: marks.signs,
        end,
    }
}

fn serve_from<D: Desk, G: Gate, S: Source, K: Sink, L: Ledger>(
    alloc: Global,
    desk: &mut D,
    gate: &G,
    source: &mut S,
    sink: &mut K,
    settings: &Settings,
    marks: &mut Marks,
    steps: &mut Steps<L>,
) -> End
    requires some { 1 ≤ settings.now.requests }
    requires same { (D.caller desk.old).settings ≡ settings.now }
    requires points { marks.old.points.items ≡ [] }
    requires signs { marks.old.signs.items ≡ [] }
    ensures session { Session settings.now (D.caller desk.old) (D.caller desk.new) (S.left source.old) (S.left source.new) (K.held sink.old) (K.held sink.new) marks.new.points.items marks.new.signs.items result }
    ensures read_later { S.faults source.old ≤ S.faults source.new }
    ensures write_later { K.faults sink.old ≤ K.faults sink.new }
    ensures read_fault { result ≡ ReadFault → Rose (S.faults source.old) (S.faults source.new) }
    ensures write_fault { IsWriteFault result → Rose (K.faults sink.old) (K.faults sink.new) }
{
    match room(alloc) {
        Ok((mut held, mut out)) => {
            serve_all(
                alloc,
                desk,
                gate,
                source,
                sink,
                &mut held,
                &mut out,
                settings,
                marks,
                &mut Buffers::new(alloc),
                steps,
            )
        }
        Err(_) => fail(sink),
    }
}

// What is read ahead, which is nothing yet, and room for replies.
fn room(alloc: Global) -> Result<(Held, Out), Memory>
    ensures { IfOk result (λ r. r.0 ≡ []) }
{
    let held = Held::new(alloc)?;
    let out = Out::new(alloc)?;
    Ok((held, out))
}

fn serve_all<D: Desk, G: Gate, S: Source, K: Sink, L: Ledger>(
    alloc: Global,
    desk: &mut D,
    gate: &G,
    source: &mut S,
    sink: &mut K,
    held: &mut Held,
    out: &mut Out,
    settings: &Settings,
    marks: &mut Marks,
    buffers: &mut Buffers,
    steps: &mut Steps<L>,
) -> End
    requires some { 1 ≤ settings.now.requests }
    requires same { (D.caller desk.old).settings ≡ settings.now }
    requires held { held.old ≡ [] }
    requires points { marks.old.points.items ≡ [] }
    requires signs { marks.old.signs.items ≡ [] }
    ensures session { Session settings.now (D.caller desk.old) (D.caller desk.new) (S.left source.old) (S.left source.new) (K.held sink.old) (K.held sink.new) marks.new.points.items marks.new.signs.items result }
    ensures read_later { S.faults source.old ≤ S.faults source.new }
    ensures write_later { K.faults sink.old ≤ K.faults sink.new }
    ensures read_fault { result ≡ ReadFault → Rose (S.faults source.old) (S.faults source.new) }
    ensures write_fault { IsWriteFault result → Rose (K.faults sink.old) (K.faults sink.new) }
{
    let mut left = settings.requests;
    'requests: loop {
        match turn(
            alloc,
            desk,
            gate,
            source,
            sink,
            held,
            out,
            settings,
            left <= 1,
            marks,
            buffers,
            steps,
        ) {
            Some(end) => return end,
            None => left -= 1,
        }
    }
}
