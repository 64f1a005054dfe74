ghost use Rattle.std.specs.Prelude.{◌≡◌, IfOk};
ghost use Rattle.session_model.specs.Replies.{done_reply};
ghost use Rattle.session_model.specs.declared.route.Route.TheVariants as routes;
ghost use Rattle.desk_answers.specs.Gives.{GivesAt};
ghost use Rattle.desk_answers.specs.Shown.{sign_body};

use crate::reply::{Answered, done};
use book_desk::Desk;
use gate::Gate;
use http_wire::Request;
use osv_prim::{Ledger, Memory, Steps};
use reply_json::{building_body, published_body};
use session_model::Sign;
use std::alloc::Global;

/// Publishes all that was imported.
pub(crate) fn publish<D: Desk, G: Gate, L: Ledger>(
    alloc: Global,
    desk: &mut D,
    gate: &G,
    request: &Request,
    closes: bool,
    steps: &mut Steps<L>,
) -> Result<Answered, Memory>
    ensures { GivesAt (D.caller desk.old) (D.caller desk.new) closes request.now routes.Publish result }
{
    match desk_calls::publish(alloc, desk, gate, steps) {
        Ok(sign) => reply_of(alloc, sign, closes),
        Err(_) => Err(Memory),
    }
}

fn reply_of(alloc: Global, sign: Sign, closes: bool) -> Result<Answered, Memory>
    ensures { IfOk result (λ a. (a.sign ≡ sign) × (a.reply ≡ done_reply closes (sign_body sign))) }
{
    Ok(done(sign, closes, body_of(alloc, sign)?))
}

fn body_of(alloc: Global, sign: Sign) -> Result<Vec<u8>, Memory>
    ensures { IfOk result (λ b. b.items ≡ sign_body sign) }
{
    match sign {
        Sign::Published { snapshot, upto } => published_body(alloc, snapshot, upto),
        Sign::Building { out, took } => building_body(alloc, out, took),
        Sign::Plain | Sign::Looked | Sign::Moved { .. } => Ok(Vec::new(alloc)),
    }
}
