ghost use Rattle.std.specs.Prelude.{◌≡◌, ◌≤◌, min};
ghost use Rattle.std.specs.Io.KnownBytes.{prepend_known};
ghost use Rattle.edge_io.specs.Causes.{Rose};
ghost use Rattle.http_wire.specs.Rests.{work_of};
ghost use Rattle.http_wire.specs.Wholes.{BodyTells};
ghost use Rattle.http_wire.specs.declared.body.ReadBody.TheVariants.{ReadFault};

use crate::fault::WireFault;
use crate::held::Held;
use crate::part::next_part;
use crate::rest::{Part, Rest, Stage};
use crate::taking::MOST_PART;
use edge_io::Source;
use std::alloc::Global;

/// The whole body behind a head.
#[derive(Drop)]
pub enum ReadBody {
    Whole(Vec<u8>),
    Refused(WireFault),
    /// The source ended inside the body.
    Truncated,
    ReadFault,
    Memory,
}

/// Reads all that is left of a body. Its memory grows with the bytes that come, whatever length the head
/// told.
pub fn read_body<S: Source>(
    alloc: Global,
    source: &mut S,
    held: &mut Held,
    mut rest: Rest,
) -> ReadBody
    ensures tells { BodyTells rest (prepend_known held.old (S.left source.old)) result (prepend_known held.new (S.left source.new)) }
    ensures later { S.faults source.old ≤ S.faults source.new }
    ensures fault { result ≡ ReadFault → Rose (S.faults source.old) (S.faults source.new) }
{
    let mut body = Vec::new(alloc);
    'parts: loop {
        let most = most_at_once(&rest);
        if body.reserve(most).is_err() {
            return ReadBody::Memory;
        }
        match next_part(source, held, &mut rest, most, &mut body) {
            Part::More => {}
            Part::Done => return ReadBody::Whole(body),
            Part::Refused(fault) => return ReadBody::Refused(fault),
            Part::Truncated => return ReadBody::Truncated,
            Part::ReadFault => return ReadBody::ReadFault,
        }
    }
}

// For how many bytes there is to be room before the next part.
fn most_at_once(rest: &Rest) -> usize
    ensures some { min (work_of rest.now) 1 ≤ result }
    ensures few { result ≤ 65536 }
{
    match rest.stage {
        Stage::Bytes(left) => left.min(MOST_PART) as usize,
        _ => MOST_PART as usize,
    }
}
