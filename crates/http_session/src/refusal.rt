ghost use Rattle.std.specs.Prelude.{◌≡◌, IfOk, string_bytes};
ghost use Rattle.http_wire.specs.Replies.{HasPhrase};
ghost use Rattle.session_model.specs.Replies.{wire_message, wire_reply, wire_status};

use http_wire::{Reply, ReplyBody, WireFault};
use osv_prim::Memory;
use reply_json::body_of;
use std::alloc::{AllocError, Global};

/// The reply to a request that can't be read.
#[tactic(auto, unfolding(session_model::specs::Replies::wire_reply, session_model::specs::Replies::wire_body))]
pub(crate) fn refusal_of(alloc: Global, fault: WireFault) -> Result<Reply, Memory>
    ensures reply { IfOk result (λ r. r ≡ wire_reply fault) }
    ensures phrase { IfOk result (λ r. HasPhrase r.status) }
{
    let message = message_of(alloc, fault)?;
    let body = body_of(alloc, fault.code(), message.as_str())?;
    Ok(Reply {
        body: ReplyBody::from_vec(body),
        snapshot: None,
        allow: None,
        status: status_of(fault),
        close: true,
    })
}

fn message_of(alloc: Global, fault: WireFault) -> Result<String, AllocError>
    ensures { IfOk result (λ t. string_bytes t ≡ wire_message fault) }
{
    match fault {
        WireFault::BadHead => String::from_str(alloc, "bad request head"),
        WireFault::BadLength => String::from_str(alloc, "bad content-length"),
        WireFault::BothLengths => {
            String::from_str(alloc, "content-length with transfer-encoding")
        }
        WireFault::BadChunk => String::from_str(alloc, "bad chunk"),
        WireFault::BodyTooLarge { limit } => format!(in alloc; "body larger than {limit}"),
        WireFault::ContentCoding => String::from_str(alloc, "content-encoding not supported"),
        WireFault::HeadTooLong => String::from_str(alloc, "request head too long"),
        WireFault::TransferCoding => String::from_str(alloc, "transfer-encoding not supported"),
    }
}

fn status_of(fault: WireFault) -> u16
    ensures status { result ≡ wire_status fault }
    ensures phrase { HasPhrase result }
{
    match fault {
        WireFault::BadHead | WireFault::BadLength | WireFault::BothLengths | WireFault::BadChunk =>
            400,
        WireFault::BodyTooLarge { .. } => 413,
        WireFault::ContentCoding => 415,
        WireFault::HeadTooLong => 431,
        WireFault::TransferCoding => 501,
    }
}
