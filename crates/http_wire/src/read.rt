ghost use Rattle.std.specs.Prelude.{◌≡◌, ◌≤◌};
ghost use Rattle.std.specs.Io.KnownBytes.{prepend_known};
ghost use Rattle.edge_io.specs.Causes.{Rose};
ghost use Rattle.http_wire.specs.Wholes.{RequestTells, IsWriteFault};
ghost use Rattle.http_wire.specs.declared.read.Got.TheVariants.{ReadFault};

use crate::body::{ReadBody, read_body};
use crate::fault::WireFault;
use crate::head::{GotHead, read_head};
use crate::held::Held;
use crate::request::Request;
use crate::room::Room;
use edge_io::{Sink, Source};
use osv_prim::Bytes;
use std::alloc::Global;

/// What was read.
#[derive(Drop)]
pub enum Got {
    Request(Request),
    Refused(WireFault),
    /// The source ended between requests.
    Ended,
    /// The source ended inside a request.
    Truncated,
    ReadFault,
    /// The sink failed when it had taken the first `out` bytes of the interim reply.
    WriteFault { out: u64 },
    Memory,
}

/// Reads the next request with its body (RFC 9112), and writes `100 Continue` before the body where its
/// client waits for it. What was read beyond the request is held. After any answer but a request nothing
/// more is to be read.
pub fn read_request<S: Source, K: Sink>(
    alloc: Global,
    source: &mut S,
    sink: &mut K,
    held: &mut Held,
    room: Room,
) -> Got
    // Where the source tells its bytes, the answer is that of those held and left.
    ensures tells { RequestTells room (prepend_known held.old (S.left source.old)) (K.held sink.old) result
        held.new (prepend_known held.new (S.left source.new)) (K.held sink.new) }

    // A fault comes only where one rose in this call.
    ensures read_later { S.faults source.old ≤ S.faults source.new }
    ensures write_later { K.faults sink.old ≤ K.faults sink.new }
    ensures read_fault { result ≡ ReadFault → Rose (S.faults source.old) (S.faults source.new) }
    ensures write_fault { IsWriteFault result → Rose (K.faults sink.old) (K.faults sink.new) }
{
    match read_head(alloc, source, sink, held, room) {
        GotHead::Head(mut request, rest) => match read_body(alloc, source, held, rest) {
            ReadBody::Whole(body) => {
                request.body = Bytes::from_vec(body);
                Got::Request(request)
            }
            ReadBody::Refused(fault) => Got::Refused(fault),
            ReadBody::Truncated => Got::Truncated,
            ReadBody::ReadFault => Got::ReadFault,
            ReadBody::Memory => Got::Memory,
        },
        GotHead::Refused(fault) => Got::Refused(fault),
        GotHead::Ended => Got::Ended,
        GotHead::Truncated => Got::Truncated,
        GotHead::ReadFault => Got::ReadFault,
        GotHead::WriteFault { out } => Got::WriteFault { out },
        GotHead::Memory => Got::Memory,
    }
}
