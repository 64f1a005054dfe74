ghost use Rattle.std.specs.Prelude.{◌≡◌, IfOk};
ghost use Rattle.http_wire.specs.Replies.{HasPhrase};
ghost use Rattle.session_model.specs.Replies.{done_reply, snapshot_reply, refusal_reply, method_reply};
ghost use Rattle.session_model.specs.declared.sign.Sign.TheVariants.{Plain, Looked};

use http_wire::{Allow, Reply, ReplyBody};
use osv_prim::Memory;
use reply_json::{Refusal, refusal_body};
use session_model::Sign;
use std::alloc::Global;

/// A reply, and what it owes to the book.
#[derive(Drop)]
pub struct Answered {
    pub sign: Sign,
    pub reply: Reply,
    ghost has_phrase: { HasPhrase reply.status },
}

/// What was asked for was done.
pub(crate) fn done(sign: Sign, closes: bool, body: Vec<u8>) -> Answered
    ensures { (result.sign ≡ sign) × (result.reply ≡ done_reply closes body.items) }
{
    let reply = Reply {
        body: ReplyBody::from_vec(body),
        snapshot: None,
        allow: None,
        status: 200,
        close: closes,
    };
    Answered { sign, reply }
}

/// What was asked for, of a snapshot.
pub(crate) fn of_snapshot(closes: bool, snapshot: u64, body: ReplyBody) -> Answered
    ensures { (result.sign ≡ Looked) × (result.reply ≡ snapshot_reply closes snapshot body) }
{
    let reply = Reply {
        body,
        snapshot: Some(snapshot),
        allow: None,
        status: 200,
        close: closes,
    };
    Answered {
        sign: Sign::Looked,
        reply,
    }
}

/// What was asked for is refused.
pub(crate) fn refused(
    alloc: Global,
    sign: Sign,
    closes: bool,
    refusal: &Refusal,
) -> Result<Answered, Memory>
    ensures { IfOk result (λ a. (a.sign ≡ sign) × (a.reply ≡ refusal_reply closes refusal.now)) }
{
    let reply = Reply {
        body: ReplyBody::from_vec(refusal_body(alloc, refusal)?),
        snapshot: None,
        allow: None,
        status: refusal.status(),
        close: closes,
    };
    Ok(Answered { sign, reply })
}

/// The path is asked by another method.
pub(crate) fn wrong_method(alloc: Global, closes: bool, allow: Allow) -> Result<Answered, Memory>
    ensures { IfOk result (λ a. (a.sign ≡ Plain) × (a.reply ≡ method_reply closes allow)) }
{
    let reply = Reply {
        body: ReplyBody::from_vec(refusal_body(alloc, &Refusal::MethodNotAllowed)?),
        snapshot: None,
        allow: Some(allow),
        status: 405,
        close: closes,
    };
    Ok(Answered {
        sign: Sign::Plain,
        reply,
    })
}
