ghost use Rattle.std.specs.Prelude.{◌≡◌, ◌≤◌, ◌+◌, length, take, drop};
ghost use Rattle.std.specs.Io.KnownBytes.{prepend_known};
ghost use Rattle.edge_io.specs.Causes.{Rose};
ghost use Rattle.http_wire.specs.Opened.{IsHeadAt, Judges, TellsOf};
ghost use Rattle.http_wire.specs.declared.opening.Opened.TheVariants.{ReadFault};

use crate::asking::{request_of, split_target};
use crate::fault::{Framing, WireFault};
use crate::fields::{framing, waits};
use crate::find::{Found, find_head};
use crate::held::Held;
use crate::parse::parse_head;
use crate::request::Request;
use crate::room::{Room, limit_at};
use edge_io::Source;
use httparse::spans::{HeaderSpan, RequestSpans};
use std::alloc::Global;

/// The front of a request.
#[derive(Drop)]
pub(crate) enum Opened {
    /// A request without its body, how the body is framed, and whether the client waits for
    /// `100 Continue`.
    Head(Request, Framing, bool),
    Refused(WireFault),
    Ended,
    Truncated,
    ReadFault,
    Memory,
}

/// Reads the head of a request.
pub(crate) fn read_opening<S: Source>(
    alloc: Global,
    source: &mut S,
    held: &mut Held,
    room: Room,
) -> Opened
    ensures tells { TellsOf room (prepend_known held.old (S.left source.old)) result
        held.new (prepend_known held.new (S.left source.new)) }
    ensures later { S.faults source.old ≤ S.faults source.new }
    ensures fault { result ≡ ReadFault → Rose (S.faults source.old) (S.faults source.new) }
{
    match find_head(source, held) {
        Found::Head(skipped, len) => take_head(alloc, held, skipped, len, room),
        Found::TooLong => Opened::Refused(WireFault::HeadTooLong),
        Found::Ended => Opened::Ended,
        Found::Truncated => Opened::Truncated,
        Found::ReadFault => Opened::ReadFault,
    }
}

// Takes the head off what is held.
fn take_head(alloc: Global, held: &mut Held, skipped: usize, len: usize, room: Room) -> Opened
    requires { skipped + len ≤ length held.old }
    ensures judges { Judges room (take len (drop skipped held.old)) result }
    ensures held { held.new ≡ drop (skipped + len) held.old }
{
    let bytes = held.window.as_slice();
    let end = skipped + len;
    let opened = judge(alloc, &bytes[skipped..end], &mut held.lines, room);
    held.consume(end);
    opened
}

// Judges a head. `lines` has room for all its header lines.
fn judge(alloc: Global, bytes: &[u8], lines: &mut [HeaderSpan], room: Room) -> Opened
    requires { length lines.old ≡ 100 }
    ensures { Judges room bytes.now result }
{
    match parse_head(bytes, lines) {
        Some(spans) => accept(alloc, bytes, spans, lines, room),
        None => Opened::Refused(WireFault::BadHead),
    }
}

// Tests the fields of a head.
fn accept(
    alloc: Global,
    bytes: &[u8],
    spans: RequestSpans,
    lines: &[HeaderSpan],
    room: Room,
) -> Opened
    requires { IsHeadAt bytes.now lines.now spans }
    ensures { Judges room bytes.now result }
{
    let lines = &lines[..spans.headers];
    let (path, _) = split_target(spans.path.of(bytes));
    match framing(bytes, lines, limit_at(room, path)) {
        Err(fault) => Opened::Refused(fault),
        Ok(framing) => {
            let waits = waits(bytes, lines, spans.version, framing);
            match request_of(alloc, bytes, spans, lines) {
                Ok(request) => Opened::Head(request, framing, waits),
                Err(_) => Opened::Memory,
            }
        }
    }
}
