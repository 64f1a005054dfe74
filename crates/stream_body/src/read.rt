ghost use Rattle.std.specs.Prelude.{◌≡◌, ◌≤◌, ◌<◌, ◌^◌};
ghost use Rattle.std.specs.Io.KnownBytes.{prepend_known};
ghost use Rattle.edge_io.specs.Causes.{Rose};
ghost use Rattle.http_wire.specs.Rests.{work_of};
ghost use Rattle.stream_body.specs.Streams.{StreamTells};
ghost use Rattle.stream_body.specs.declared.read.ReadStream.TheVariants.{ReadFault};

use crate::commits::Commits;
use edge_io::Source;
use fast_export::{Reader, StreamFault};
use http_wire::{Held, Part, Rest, WireFault, read_part};
use std::alloc::Global;

/// The body behind a head, read as a stream.
#[derive(Drop)]
pub enum ReadStream {
    /// The body was read as a whole.
    Come(Commits),
    Refused(WireFault),
    /// The source ended inside the body.
    Truncated,
    ReadFault,
    Memory,
}

/// Room for a part of a body.
const PART_ROOM: usize = 65536;

/// Reads what is left of a body as a stream of at most `most` commits, and keeps none of its bytes. Behind a
/// fault of the stream the rest is read and dropped, since a faulty body comes before a faulty stream; where
/// there is no memory nothing more is read.
pub fn read_stream<S: Source>(
    alloc: Global,
    source: &mut S,
    held: &mut Held,
    mut rest: Rest,
    most: u32,
) -> ReadStream
    requires { work_of rest < 2 ^ 64 }
    ensures tells { StreamTells most rest (prepend_known held.old (S.left source.old)) result (prepend_known held.new (S.left source.new)) }
    ensures later { S.faults source.old ≤ S.faults source.new }
    ensures fault { result ≡ ReadFault → Rose (S.faults source.old) (S.faults source.new) }
{
    let Ok(mut part) = Vec::with_capacity(alloc, PART_ROOM) else {
        return ReadStream::Memory;
    };
    let Ok(mut reader) = Reader::new(alloc, most) else {
        return ReadStream::Memory;
    };
    'parts: loop {
        match read_part(source, held, &mut rest, &mut part) {
            Part::More => {
                if let Err(StreamFault::Memory) = reader.feed(part.as_slice()) {
                    return ReadStream::Memory;
                }
            }
            Part::Done => return ReadStream::Come(reader.finish()),
            Part::Refused(fault) => return ReadStream::Refused(fault),
            Part::Truncated => return ReadStream::Truncated,
            Part::ReadFault => return ReadStream::ReadFault,
        }
    }
}
