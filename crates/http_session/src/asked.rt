ghost use Rattle.std.specs.Prelude.{◌≡◌, ◌≤◌, ◌<◌, ◌^◌};
ghost use Rattle.std.specs.Io.KnownBytes.{prepend_known};
ghost use Rattle.edge_io.specs.Causes.{Rose};
ghost use Rattle.http_wire.specs.Requests.{with_bytes};
ghost use Rattle.http_wire.specs.Rests.{work_of};
ghost use Rattle.session_model.specs.Ends.{room_of};
ghost use Rattle.http_session.specs.Streaming.{AskedTells, BehindTells, IsCut};
ghost use Rattle.http_session.specs.declared.asked.Asked.TheVariants.{ReadFault, Ended};

use desk_answers::is_streamed;
use edge_io::{Sink, Source};
use http_wire::{GotHead, Held, ReadBody, Request, Rest, Room, WireFault, read_body, read_head};
use osv_prim::Bytes;
use settings::Settings;
use std::alloc::Global;
use stream_body::{Commits, ReadStream, read_stream};

/// What was read.
#[derive(Drop)]
pub(crate) enum Asked {
    /// A request with its body, or without it and with what came of it as a stream.
    Request(Request, Option<Commits>),
    Refused(WireFault),
    /// The source ended between requests.
    Ended,
    /// The source ended inside a request.
    Truncated,
    ReadFault,
    /// The sink failed when it had taken the first `out` bytes of the interim reply.
    WriteFault { out: u64 },
    Memory,
}

/// Reads the next request as `read_request` does, but keeps no body of which nothing but its commits is wanted.
pub(crate) fn read_asked<S: Source, K: Sink>(
    alloc: Global,
    source: &mut S,
    sink: &mut K,
    held: &mut Held,
    settings: &Settings,
) -> Asked
    // Where the source tells its bytes, they ask what reading the whole request says.
    ensures tells { AskedTells settings.now.commits (room_of settings.now) (prepend_known held.old (S.left source.old)) (K.held sink.old) result
        held.new (prepend_known held.new (S.left source.new)) (K.held sink.new) }

    // A fault comes only where one rose in this call.
    ensures read_later { S.faults source.old ≤ S.faults source.new }
    ensures write_later { K.faults sink.old ≤ K.faults sink.new }
    ensures read_fault { result ≡ ReadFault → Rose (S.faults source.old) (S.faults source.new) }
    ensures write_fault { IsCut result → Rose (K.faults sink.old) (K.faults sink.new) }
{
    let room = Room {
        body: settings.body,
        stream: settings.stream,
    };
    match read_head(alloc, source, sink, held, room) {
        GotHead::Head(request, rest) => {
            read_behind(alloc, source, held, request, rest, settings.commits)
        }
        GotHead::Refused(fault) => Asked::Refused(fault),
        GotHead::Ended => Asked::Ended,
        GotHead::Truncated => Asked::Truncated,
        GotHead::ReadFault => Asked::ReadFault,
        GotHead::WriteFault { out } => Asked::WriteFault { out },
        GotHead::Memory => Asked::Memory,
    }
}

// Reads the body behind the head of a request.
fn read_behind<S: Source>(
    alloc: Global,
    source: &mut S,
    held: &mut Held,
    request: Request,
    rest: Rest,
    most: u32,
) -> Asked
    requires { work_of rest < 2 ^ 64 }
    ensures tells { BehindTells most request rest (prepend_known held.old (S.left source.old)) result (prepend_known held.new (S.left source.new)) }
    ensures later { S.faults source.old ≤ S.faults source.new }
    ensures fault { result ≡ ReadFault → Rose (S.faults source.old) (S.faults source.new) }
{
    if is_streamed(&request) {
        return match read_stream(alloc, source, held, rest, most) {
            ReadStream::Come(come) => Asked::Request(request, Some(come)),
            ReadStream::Refused(fault) => Asked::Refused(fault),
            ReadStream::Truncated => Asked::Truncated,
            ReadStream::ReadFault => Asked::ReadFault,
            ReadStream::Memory => Asked::Memory,
        };
    }
    match read_body(alloc, source, held, rest) {
        ReadBody::Whole(body) => Asked::Request(with_body(request, body), None),
        ReadBody::Refused(fault) => Asked::Refused(fault),
        ReadBody::Truncated => Asked::Truncated,
        ReadBody::ReadFault => Asked::ReadFault,
        ReadBody::Memory => Asked::Memory,
    }
}

fn with_body(mut request: Request, body: Vec<u8>) -> Request
    ensures { result ≡ with_bytes request body.items }
{
    request.body = Bytes::from_vec(body);
    request
}
