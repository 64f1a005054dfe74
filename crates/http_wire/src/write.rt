ghost use Rattle.std.specs.Prelude.{◌≡◌, ◌<◌, ◌≤◌, ◌+◌, ◌++◌, length, take, drop, OnOk, IfErr};
ghost use Rattle.std.specs.Io.KnownBytes.{Appends};
ghost use Rattle.edge_io.specs.Causes.{HasCause};
ghost use Rattle.http_wire.specs.Replies.{HasPhrase, spelled, no_memory};

use crate::head_line::put_head;
use crate::out::Out;
use crate::reply::Reply;
use edge_io::{Sink, SinkFault, write_whole};

/// Writes a reply: in one write where its body was put behind room for a head, or has at most 65,536 bytes with its
/// head, else in two. It takes no memory, and keeps the body's for the next reply.
#[tactic(auto, unfolding(crate::specs::Replies::spelled))]
pub fn write_reply<K: Sink>(sink: &mut K, out: &mut Out, reply: Reply) -> Result<(), SinkFault>
    requires { HasPhrase reply.status }
    ensures ok { OnOk result (Appends (K.held sink.old) (K.held sink.new) (spelled reply)) }
    ensures err { IfErr result (λ f. Appends (K.held sink.old) (K.held sink.new) (take f.out (spelled reply))) }
    ensures within { IfErr result (λ f. f.out < length (spelled reply)) }
    ensures cause { HasCause (K.faults sink.old) (K.faults sink.new) result }
{
    out.clear();
    put_head(out, &reply);
    let (mut bytes, start) = reply.body.into_parts();
    let result = write_behind(sink, out, &mut bytes, start);
    out.keep(bytes);
    result
}

// Writes what `out` has, and then the bytes from `start` on.
fn write_behind<K: Sink>(
    sink: &mut K,
    out: &mut Out,
    bytes: &mut [u8],
    start: usize,
) -> Result<(), SinkFault>
    requires short { length out.old ≤ 256 }
    requires within { start ≤ length bytes.old }
    ensures ok { OnOk result (Appends (K.held sink.old) (K.held sink.new) (out.old ++ drop start bytes.old)) }
    ensures err { IfErr result (λ f. Appends (K.held sink.old) (K.held sink.new) (take f.out (out.old ++ drop start bytes.old))) }
    ensures within { IfErr result (λ f. f.out < length (out.old ++ drop start bytes.old)) }
    ensures cause { HasCause (K.faults sink.old) (K.faults sink.new) result }
{
    let head = out.as_slice();
    if head.len() <= start {
        let front = start - head.len();
        put_before(bytes, front, head);
        return write_whole(sink, &bytes[front..]);
    }
    let body = &bytes[start..];
    if out.has_room(body.len()) {
        out.put(body);
        return write_whole(sink, out.as_slice());
    }
    write_both(sink, out.as_slice(), body)
}

// Puts a text where the bytes from `front` on have room for it.
fn put_before(bytes: &mut [u8], front: usize, text: &[u8])
    requires { front + length text.now ≤ length bytes.old }
    ensures { drop front bytes.new ≡ text.now ++ drop (front + length text.now) bytes.old }
{
    bytes[front..front + text.len()].copy_from_slice(text);
}

// Writes one text and then the other.
fn write_both<K: Sink>(sink: &mut K, head: &[u8], body: &[u8]) -> Result<(), SinkFault>
    requires { length head.now ≤ 4096 }
    ensures ok { OnOk result (Appends (K.held sink.old) (K.held sink.new) (head.now ++ body.now)) }
    ensures err { IfErr result (λ f. Appends (K.held sink.old) (K.held sink.new) (take f.out (head.now ++ body.now))) }
    ensures within { IfErr result (λ f. f.out < length (head.now ++ body.now)) }
    ensures cause { HasCause (K.faults sink.old) (K.faults sink.new) result }
{
    match write_whole(sink, head) {
        Ok(()) => match write_whole(sink, body) {
            Ok(()) => Ok(()),
            Err(fault) => Err(SinkFault {
                out: head.len() as u64 + fault.out,
            }),
        },
        Err(fault) => Err(fault),
    }
}

/// Writes the reply of a server that found no memory, and takes none for it.
pub fn write_memory<K: Sink>(sink: &mut K) -> Result<(), SinkFault>
    ensures ok { OnOk result (Appends (K.held sink.old) (K.held sink.new) (spelled no_memory)) }
    ensures err { IfErr result (λ f. Appends (K.held sink.old) (K.held sink.new) (take f.out (spelled no_memory))) }
    ensures within { IfErr result (λ f. f.out < length (spelled no_memory)) }
    ensures cause { HasCause (K.faults sink.old) (K.faults sink.new) result }
{
    write_whole(
        sink,
        b"HTTP/1.1 503 Service Unavailable\r\ncontent-type: application/json\r\ncontent-length: 30\r\nconnection: close\r\n\r\n{\"code\":22,\"message\":\"memory\"}",
    )
}
