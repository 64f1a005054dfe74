ghost use Rattle.std.specs.Prelude.{◌≡◌, ◌+◌, ◌≤◌, [], ◌++◌, length, decimal, codes, flat_map};
ghost use Rattle.http_wire.specs.Replies.{HasPhrase, status_line, head_of, field_line, snapshot_fields, allow_fields, close_fields};

use crate::out::Out;
use crate::reply::{Allow, Reply};
use itoa::Buffer;

/// Puts the head of a reply.
#[tactic(auto, unfolding(crate::specs::Replies::head_of, crate::specs::Replies::fields_of))]
pub(crate) fn put_head(out: &mut Out, reply: &Reply)
    requires empty { out.old ≡ [] }
    requires status { HasPhrase reply.now.status }
    ensures head { out.new ≡ head_of reply.now }
    ensures short { length out.new ≤ 256 }
{
    out.put(status_line(reply.status));
    out.put(b"content-type: application/json\r\n");
    put_number(out, b"content-length: ", reply.body.len() as u64);
    put_snapshot(out, reply.snapshot);
    put_allow(out, reply.allow);
    put_close(out, reply.close);
    out.put(b"\r\n");
}

#[tactic(auto, unfolding(crate::specs::Replies::status_line))]
fn status_line(status: u16) -> &'static [u8]
    requires { HasPhrase status }
    ensures line { result.now ≡ status_line status }
    ensures short { length result.now ≤ 46 }
{
    match status {
        200 => b"HTTP/1.1 200 OK\r\n",
        400 => b"HTTP/1.1 400 Bad Request\r\n",
        404 => b"HTTP/1.1 404 Not Found\r\n",
        405 => b"HTTP/1.1 405 Method Not Allowed\r\n",
        409 => b"HTTP/1.1 409 Conflict\r\n",
        410 => b"HTTP/1.1 410 Gone\r\n",
        413 => b"HTTP/1.1 413 Content Too Large\r\n",
        415 => b"HTTP/1.1 415 Unsupported Media Type\r\n",
        431 => b"HTTP/1.1 431 Request Header Fields Too Large\r\n",
        501 => b"HTTP/1.1 501 Not Implemented\r\n",
        503 => b"HTTP/1.1 503 Service Unavailable\r\n",
        507 => b"HTTP/1.1 507 Insufficient Storage\r\n",
        _ => unreachable!(),
    }
}

// Puts a line that ends with a number.
fn put_number(out: &mut Out, name: &[u8], number: u64)
    requires { length out.old + length name.now ≤ 4000 }
    ensures line { out.new ≡ out.old ++ (name.now ++ (decimal number ++ codes "\r\n")) }
    ensures short { length out.new ≤ length out.old + length name.now + 22 }
{
    let mut buffer = Buffer::new();
    out.put(name);
    out.put(buffer.format(number).as_bytes());
    out.put(b"\r\n");
}

fn put_snapshot(out: &mut Out, snapshot: Option<u64>)
    requires { length out.old ≤ 3900 }
    ensures line { out.new ≡ out.old ++ flat_map field_line (snapshot_fields snapshot) }
    ensures short { length out.new ≤ length out.old + 38 }
{
    match snapshot {
        Some(snapshot) => put_number(out, b"x-osv-snapshot: ", snapshot),
        None => {}
    }
}

fn put_allow(out: &mut Out, allow: Option<Allow>)
    requires { length out.old ≤ 4000 }
    ensures line { out.new ≡ out.old ++ flat_map field_line (allow_fields allow) }
    ensures short { length out.new ≤ length out.old + 13 }
{
    match allow {
        Some(Allow::Get) => out.put(b"allow: GET\r\n"),
        Some(Allow::Post) => out.put(b"allow: POST\r\n"),
        None => {}
    }
}

fn put_close(out: &mut Out, close: bool)
    requires { length out.old ≤ 4000 }
    ensures line { out.new ≡ out.old ++ flat_map field_line (close_fields close) }
    ensures short { length out.new ≤ length out.old + 19 }
{
    match close {
        true => out.put(b"connection: close\r\n"),
        false => {}
    }
}
