ghost use Rattle.std.specs.Prelude.{◌≡◌, List, IfOk};
ghost use Rattle.history.specs.declared.past.Past.{Past};
ghost use Rattle.reply_json.specs.Answers.{answer_body, answer_in};
ghost use Rattle.snapshot.specs.Pages.{found_seen, page};
ghost use Rattle.snapshot.specs.Snapshots.{StandsFor};
ghost use Rattle.session_model.specs.Looks.{after_of, named_by, page_of, query_reply};
ghost use Rattle.session_model.specs.Replies.{snapshot_reply};
ghost use Rattle.session_model.specs.declared.route.Route.TheVariants as routes;
ghost use Rattle.session_model.specs.declared.sign.Sign.TheVariants.{Looked};
ghost use Rattle.desk_answers.specs.Gives.{GivesAt};
ghost use Rattle.desk_answers.specs.Shown.{ShowsAs};

use crate::find::{Shown, snapshot_for};
use crate::reply::{Answered, of_snapshot, refused};
use crate::request::least_of;
use book_desk::Desk;
use http_wire::{Out, ReplyBody, Request};
use osv_prim::{Ledger, Memory, Steps};
use osv_record::Buffers;
use page_token::Token;
use query_json::{BatchFault, Query, QueryFault, read_query_in};
use reply_json::{Answer, Refusal, put_answer};
use session_model::Sign;
use snapshot::{Found, Snapshot};
use std::alloc::Global;

/// Answers a query, with so many hits at most.
pub(crate) fn query<D: Desk, L: Ledger>(
    alloc: Global,
    desk: &mut D,
    request: &Request,
    closes: bool,
    size: u32,
    buffers: &mut Buffers,
    out: &mut Out,
    steps: &mut Steps<L>,
) -> Result<Answered, Memory>
    requires { size ≡ (D.caller desk.old).settings.page }
    ensures { GivesAt (D.caller desk.old) (D.caller desk.new) closes request.now routes.Query result }
{
    let _known = desk.point();
    let Some(least) = least_of(&request.min) else {
        return refused(alloc, Sign::Plain, closes, &Refusal::BadMinSnapshot);
    };
    match read_query_in(alloc, request.body.as_slice(), buffers) {
        Err(QueryFault::Memory) => Err(Memory),
        Err(fault) => {
            let refusal = Refusal::BadQuery(BatchFault { index: None, fault });
            refused(alloc, Sign::Plain, closes, &refusal)
        }
        Ok(query) => answer_query(alloc, desk, &query, least, closes, size, out, steps),
    }
}

fn answer_query<D: Desk, L: Ledger>(
    alloc: Global,
    desk: &mut D,
    query: &Query,
    least: u64,
    closes: bool,
    size: u32,
    out: &mut Out,
    steps: &mut Steps<L>,
) -> Result<Answered, Memory>
    ensures { ShowsAs (D.caller desk.old) (D.caller desk.new) (query_reply (D.caller desk.old).settings.keep size closes (D.caller desk.new).front least query.now) result }
{
    match snapshot_for(alloc, desk, least, named_by(&query.page)) {
        Ok(Shown::Not(refusal)) => refused(alloc, Sign::Looked, closes, &refusal),
        Ok(Shown::Here { number, snapshot }) => {
            reply_of(alloc, &snapshot, number, query, closes, size, out, steps)
        }
        Err(_) => Err(Memory),
    }
}

fn named_by(token: &Option<Token>) -> Option<u64>
    ensures { result ≡ named_by token.now }
{
    match token {
        None => None,
        Some(token) => Some(token.snapshot),
    }
}

fn reply_of<L: Ledger>(
    alloc: Global,
    snapshot: &Snapshot,
    number: u64,
    query: &Query,
    closes: bool,
    size: u32,
    out: &mut Out,
    steps: &mut Steps<L>,
) -> Result<Answered, Memory>
    ensures { (p : List Past) → StandsFor snapshot.now p → IfOk result (λ a. (a.sign ≡ Looked) × (a.reply ≡ snapshot_reply closes number (answer_body (page_of size p number query.now)))) }
{
    let answer = page(alloc, snapshot, number, query, size, steps)?;
    let mut body = out.room(alloc)?;
    put_answer(&mut body, &answer)?;
    Ok(of_snapshot(closes, number, ReplyBody::behind_room(body)))
}

/// The page of a query, of a snapshot that has this number.
pub(crate) fn page<'a, L: Ledger>(
    alloc: Global,
    snapshot: &'a Snapshot,
    number: u64,
    query: &Query,
    size: u32,
    steps: &mut Steps<L>,
) -> Result<Answer<'a>, Memory>
    ensures { (p : List Past) → StandsFor snapshot.now p → IfOk result (λ a. answer_in a ≡ page_of size p number query.now) }
{
    let found = hits(alloc, snapshot, query, size, steps)?;
    Ok(Answer {
        snapshot: number,
        found: found.hits,
        more: found.more,
    })
}

fn hits<'a, L: Ledger>(
    alloc: Global,
    snapshot: &'a Snapshot,
    query: &Query,
    size: u32,
    steps: &mut Steps<L>,
) -> Result<Found<'a>, Memory>
    ensures { (p : List Past) → StandsFor snapshot.now p → IfOk result (λ g. found_seen g ≡ page p query.now.subject (after_of query.now.page) size) }
{
    match &query.page {
        None => snapshot.look(alloc, &query.subject, None, size, steps),
        Some(token) => snapshot.look(alloc, &query.subject, Some(&token.after), size, steps),
    }
}
