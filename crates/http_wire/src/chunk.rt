ghost use Rattle.std.specs.Prelude.{◌≡◌, ◌≢◌, ◌≤◌, ◌<◌, ◌+◌, ℕ, length, take, drop, option_map};
ghost use Rattle.std.specs.List.{before_first};
ghost use Rattle.std.specs.Io.KnownBytes.{prepend_known};
ghost use Rattle.edge_io.specs.Causes.{Rose};
ghost use Rattle.http_wire.specs.Bytes.{without_cr, is_semicolon, begins_crlf};
ghost use Rattle.http_wire.specs.Chunks.{said, chunk_size};
ghost use Rattle.http_wire.specs.Moves.{Moves, next_of, trailer_of, IfStage, IsBehindLine, IsBehindTrailer};
ghost use Rattle.http_wire.specs.declared.chunk.Step.TheVariants.{ReadFault};
ghost use Rattle.http_wire.specs.declared.rest.Stage.TheVariants.{Line, Chunk, Trailers};

use crate::fault::WireFault;
use crate::fill::{Filled, fill_to};
use crate::held::Held;
use crate::line::{LineEnd, find_line};
use crate::rest::Stage;
use crate::words::size_value;
use edge_io::Source;
use memchr::memchr;

const MOST_LINE: usize = 1024;

const MOST_TRAILERS: u64 = 65536;

/// What a step between the bytes of chunks found.
#[derive(Clone, Copy)]
pub(crate) enum Step {
    Stage(Stage),
    Refused(WireFault),
    Truncated,
    ReadFault,
}

/// Reads a chunk line, behind chunks whose sizes have this sum.
pub(crate) fn next_chunk<S: Source>(source: &mut S, held: &mut Held, sum: u64, limit: u64) -> Step
    requires { sum ≤ limit }
    ensures moves { Moves limit (Line sum) (prepend_known held.old (S.left source.old)) result (prepend_known held.new (S.left source.new)) }
    ensures behind { IfStage result (IsBehindLine limit sum) }
    ensures later { S.faults source.old ≤ S.faults source.new }
    ensures fault { result ≡ ReadFault → Rose (S.faults source.old) (S.faults source.new) }
{
    match find_line(source, held, MOST_LINE) {
        LineEnd::At(end) => take_chunk_line(held, end, sum, limit),
        LineEnd::TooLong => Step::Refused(WireFault::BadChunk),
        LineEnd::Cut => Step::Truncated,
        LineEnd::ReadFault => Step::ReadFault,
    }
}

// Takes the line off what is held.
#[tactic(auto, unfolding(crate::specs::Moves::next_of))]
fn take_chunk_line(held: &mut Held, end: usize, sum: u64, limit: u64) -> Step
    requires end { end < length held.old }
    requires sum { sum ≤ limit }
    ensures next { result ≡ next_of limit sum (chunk_size (take end held.old)) }
    ensures held { held.new ≡ drop (end + 1) held.old }
    ensures no_fault { result ≢ ReadFault }
    ensures behind { IfStage result (IsBehindLine limit sum) }
{
    let bytes = held.as_slice();
    let size = chunk_size(&bytes[..end]);
    held.consume(end + 1);
    match size {
        None => Step::Refused(WireFault::BadChunk),
        Some(0) => Step::Stage(Stage::Trailers(MOST_TRAILERS)),
        Some(size) => {
            if size > limit - sum {
                Step::Refused(WireFault::BodyTooLarge { limit })
            } else {
                Step::Stage(Stage::Chunk(size, sum + size))
            }
        }
    }
}

// The size that a line gives, without its LF.
#[tactic(auto, unfolding(crate::specs::Chunks::chunk_size))]
fn chunk_size(line: &[u8]) -> Option<u64>
    ensures { result ≡ chunk_size line.now }
{
    match without_cr(line) {
        Some(line) => said(line),
        None => None,
    }
}

#[tactic(auto, unfolding(crate::specs::Bytes::without_cr))]
fn without_cr(line: &[u8]) -> Option<&[u8]>
    ensures { option_map (λ l. l.now) result ≡ without_cr line.now }
{
    if line.is_empty() || line[line.len() - 1] != b'\r' {
        return None;
    }
    Some(&line[..line.len() - 1])
}

fn said(line: &[u8]) -> Option<u64>
    ensures { result ≡ said line.now }
{
    if line.contains(&b'\r') {
        return None;
    }
    size_value(before_semicolon(line))
}

fn before_semicolon(line: &[u8]) -> &[u8]
    ensures { result.now ≡ before_first is_semicolon line.now }
{
    match memchr(b';', line) {
        Some(end) => &line[..end],
        None => line,
    }
}

/// Reads the CR LF behind the bytes of a chunk.
pub(crate) fn close_chunk<S: Source>(source: &mut S, held: &mut Held, sum: u64) -> Step
    ensures moves { (limit : ℕ) → Moves limit (Chunk 0 sum) (prepend_known held.old (S.left source.old)) result (prepend_known held.new (S.left source.new)) }
    ensures line { IfStage result (λ s. s ≡ Line sum) }
    ensures later { S.faults source.old ≤ S.faults source.new }
    ensures fault { result ≡ ReadFault → Rose (S.faults source.old) (S.faults source.new) }
{
    match fill_to(source, held, 2) {
        Filled::Enough => {
            if begins_crlf(held.as_slice()) {
                held.consume(2);
                Step::Stage(Stage::Line(sum))
            } else {
                Step::Refused(WireFault::BadChunk)
            }
        }
        Filled::Ended => Step::Truncated,
        Filled::ReadFault => Step::ReadFault,
    }
}

fn begins_crlf(text: &[u8]) -> bool
    ensures { result ≡ begins_crlf text.now }
{
    match text {
        [b'\r', b'\n', ..] => true,
        _ => false,
    }
}

/// Reads a line of the trailers.
pub(crate) fn next_trailer<S: Source>(source: &mut S, held: &mut Held, room: u64) -> Step
    requires { room ≤ 65536 }
    ensures moves { (limit : ℕ) → Moves limit (Trailers room) (prepend_known held.old (S.left source.old)) result (prepend_known held.new (S.left source.new)) }
    ensures behind { IfStage result (IsBehindTrailer room) }
    ensures later { S.faults source.old ≤ S.faults source.new }
    ensures fault { result ≡ ReadFault → Rose (S.faults source.old) (S.faults source.new) }
{
    match find_line(source, held, room as usize) {
        LineEnd::At(end) => take_trailer(held, end, room),
        LineEnd::TooLong => Step::Refused(WireFault::BadChunk),
        LineEnd::Cut => Step::Truncated,
        LineEnd::ReadFault => Step::ReadFault,
    }
}

// Takes the line off what is held.
#[tactic(auto, unfolding(crate::specs::Moves::trailer_of))]
fn take_trailer(held: &mut Held, end: usize, room: u64) -> Step
    requires end { end < length held.old }
    requires room { end < room }
    ensures next { result ≡ trailer_of room (take end held.old) (without_cr (take end held.old)) }
    ensures held { held.new ≡ drop (end + 1) held.old }
    ensures no_fault { result ≢ ReadFault }
    ensures behind { IfStage result (IsBehindTrailer room) }
{
    let bytes = held.as_slice();
    let taken = end + 1;
    let next = match without_cr(&bytes[..end]) {
        None => Step::Refused(WireFault::BadChunk),
        Some([]) => Step::Stage(Stage::Bytes(0)),
        Some(_) => Step::Stage(Stage::Trailers(room - taken as u64)),
    };
    held.consume(taken);
    next
}
