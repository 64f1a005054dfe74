ghost use Rattle.std.specs.Prelude.{◌≡◌, map, length, All, IfOk, codes};
ghost use Rattle.std.specs.List.{before_first, after_first};
ghost use Rattle.httparse.specs.Spans.{IsHeaderWithin, IsWithin, header_bytes, span_bytes};
ghost use Rattle.http_wire.specs.Bytes.{is_question};
ghost use Rattle.http_wire.specs.Fields.{asking, first_of, values};

use crate::fields::{asks_close, next_value};
use crate::request::Request;
use httparse::spans::{HeaderSpan, RequestSpans};
use memchr::memchr;
use osv_prim::{Bytes, Memory};
use std::alloc::Global;

/// The request of a head, without its body.
#[tactic(auto, unfolding(crate::specs::Fields::asking))]
pub(crate) fn request_of(
    alloc: Global,
    bytes: &[u8],
    spans: RequestSpans,
    lines: &[HeaderSpan],
) -> Result<Request, Memory>
    requires lines { All (IsHeaderWithin (length bytes.now)) lines.now }
    requires method { IsWithin (length bytes.now) spans.method }
    requires path { IsWithin (length bytes.now) spans.path }
    ensures { IfOk result (λ r. r ≡ asking (span_bytes bytes.now spans.method) (span_bytes bytes.now spans.path) spans.version (map (header_bytes bytes.now) lines.now)) }
{
    let (path, query) = split_target(spans.path.of(bytes));
    let min = first_min(alloc, bytes, lines)?;
    Ok(Request {
        method: Bytes::copy_of(alloc, spans.method.of(bytes))?,
        path: Bytes::copy_of(alloc, path)?,
        query: Bytes::copy_of(alloc, query)?,
        min,
        body: Bytes::from_vec(Vec::new(alloc)),
        version: spans.version,
        close: asks_close(bytes, lines, spans.version),
    })
}

fn first_min(alloc: Global, bytes: &[u8], lines: &[HeaderSpan]) -> Result<Option<Bytes>, Memory>
    requires { All (IsHeaderWithin (length bytes.now)) lines.now }
    ensures { IfOk result (λ m. m ≡ first_of (values (codes "x-osv-min-snapshot") (map (header_bytes bytes.now) lines.now))) }
{
    match next_value(bytes, lines, b"x-osv-min-snapshot") {
        Some((value, _)) => Ok(Some(Bytes::copy_of(alloc, value)?)),
        None => Ok(None),
    }
}

/// The path and the query of a target.
pub(crate) fn split_target(target: &[u8]) -> (&[u8], &[u8])
    ensures path { result.0.now ≡ before_first is_question target.now }
    ensures query { result.1.now ≡ after_first is_question target.now }
{
    match memchr(b'?', target) {
        Some(end) => (&target[..end], &target[end + 1..]),
        None => (target, &[]),
    }
}
