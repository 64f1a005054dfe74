ghost use Rattle.std.specs.Prelude.{◌≡◌, ◌≤◌, ◌<◌, true, length, take, OnOk, IfErr};
ghost use Rattle.std.specs.Io.KnownBytes.{Appends, prepend_known};
ghost use Rattle.edge_io.specs.Causes.{Rose, HasCause};
ghost use Rattle.http_wire.specs.Requests.{interim};
ghost use Rattle.http_wire.specs.Heads.{HeadTells, IsCounted, IsWriteFault};
ghost use Rattle.http_wire.specs.declared.head.GotHead.TheVariants.{ReadFault};

use crate::fault::WireFault;
use crate::held::Held;
use crate::opening::{Opened, read_opening};
use crate::part::rest_of;
use crate::request::Request;
use crate::rest::Rest;
use crate::room::{Room, limit_at};
use edge_io::{Sink, SinkFault, Source, write_whole};
use std::alloc::Global;

/// The head of a request, and what is left of its body to read.
#[derive(Drop)]
pub enum GotHead {
    /// A request whose body is empty yet.
    Head(Request, Rest),
    Refused(WireFault),
    /// The source ended between requests.
    Ended,
    /// The source ended inside the head.
    Truncated,
    ReadFault,
    /// The sink failed when it had taken the first `out` bytes of the interim reply.
    WriteFault { out: u64 },
    Memory,
}

/// Reads the head of a request (RFC 9112, sections 2 to 6), and writes `100 Continue` where its client
/// waits for it (RFC 9110, section 10.1.1). What was read beyond the head is held. Only the texts of the
/// request take memory.
pub fn read_head<S: Source, K: Sink>(
    alloc: Global,
    source: &mut S,
    sink: &mut K,
    held: &mut Held,
    room: Room,
) -> GotHead
    // Where the source tells its bytes, the answer is that of those held and left.
    ensures tells { HeadTells room (prepend_known held.old (S.left source.old)) (K.held sink.old) result
        held.new (prepend_known held.new (S.left source.new)) (K.held sink.new) }

    ensures counted { IsCounted result }

    // A fault comes only where one rose in this call.
    ensures read_later { S.faults source.old ≤ S.faults source.new }
    ensures write_later { K.faults sink.old ≤ K.faults sink.new }
    ensures read_fault { result ≡ ReadFault → Rose (S.faults source.old) (S.faults source.new) }
    ensures write_fault { IsWriteFault result → Rose (K.faults sink.old) (K.faults sink.new) }
{
    match read_opening(alloc, source, held, room) {
        Opened::Head(request, framing, waits) => {
            let rest = rest_of(framing, limit_at(room, request.path.as_slice()));
            match write_interim(sink, waits) {
                Ok(()) => GotHead::Head(request, rest),
                Err(fault) => GotHead::WriteFault { out: fault.out },
            }
        }
        Opened::Refused(fault) => GotHead::Refused(fault),
        Opened::Ended => GotHead::Ended,
        Opened::Truncated => GotHead::Truncated,
        Opened::ReadFault => GotHead::ReadFault,
        Opened::Memory => GotHead::Memory,
    }
}

fn write_interim<K: Sink>(sink: &mut K, waits: bool) -> Result<(), SinkFault>
    ensures ok { OnOk result (Appends (K.held sink.old) (K.held sink.new) (interim waits)) }
    ensures err { IfErr result (λ f. Appends (K.held sink.old) (K.held sink.new) (take f.out (interim true))) }
    ensures waits { IfErr result (λ f. (waits ≡ true) × (f.out < length (interim true))) }
    ensures cause { HasCause (K.faults sink.old) (K.faults sink.new) result }
{
    if !waits {
        return Ok(());
    }
    write_whole(sink, b"HTTP/1.1 100 Continue\r\n\r\n")
}
