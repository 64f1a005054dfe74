ghost use Rattle.std.specs.Prelude.{◌≡◌, ◌^◌, ◌<◌, ℕ, Some, IfOk, length, map};
ghost use Rattle.osv_prim.specs.Results.{Gives};
ghost use Rattle.history.specs.Entries.{History};
ghost use Rattle.reply_json.specs.Answers.{answer_in};
ghost use Rattle.session_model.specs.Looks.{answer_at, answers_to, batch_reply, named_by, named_snapshot, pages_reply};
ghost use Rattle.session_model.specs.declared.route.Route.TheVariants as routes;
ghost use Rattle.session_model.specs.declared.sign.Sign.TheVariants.{Looked};
ghost use Rattle.desk_calls.specs.Calls.{Finds};
ghost use Rattle.desk_answers.specs.Batches.{AreFound, IsNewest, ShownAt, number_in};
ghost use Rattle.desk_answers.specs.Gives.{GivesAt};
ghost use Rattle.desk_answers.specs.Shown.{ShowsAs};

use crate::query::page;
use crate::reply::{Answered, of_snapshot, refused};
use crate::request::least_of;
use book_desk::{Desk, Kept, Newest};
use desk_calls::find_all;
use http_wire::{Out, ReplyBody, Request};
use osv_prim::{Ledger, Memory, Steps, Stop};
use osv_record::Buffers;
use query_json::{Query, QueryFault, read_batch_in};
use reply_json::{Answer, Refusal, put_batch};
use session_model::Sign;
use snapshot::Snapshot;
use std::alloc::Global;

const MOST_QUERIES: usize = 1000;

/// Answers the queries of a batch, all of one history, each with so many hits at most.
pub(crate) fn batch<D: Desk, L: Ledger>(
    alloc: Global,
    desk: &mut D,
    request: &Request,
    closes: bool,
    size: u32,
    buffers: &mut Buffers,
    out: &mut Out,
    steps: &mut Steps<L>,
) -> Result<Answered, Memory>
    requires { size ≡ (D.caller desk.old).settings.page }
    ensures { GivesAt (D.caller desk.old) (D.caller desk.new) closes request.now routes.QueryBatch result }
{
    let _known = desk.point();
    let Some(least) = least_of(&request.min) else {
        return refused(alloc, Sign::Plain, closes, &Refusal::BadMinSnapshot);
    };
    match read_batch_in(alloc, request.body.as_slice(), buffers) {
        Err(fault) => match fault.fault {
            QueryFault::Memory => Err(Memory),
            _ => refused(alloc, Sign::Plain, closes, &Refusal::BadQuery(fault)),
        },
        Ok(queries) => {
            let queries = queries.as_slice();
            // A batch has no more, so this is never so.
            if queries.len() > MOST_QUERIES {
                return Err(Memory);
            }
            let Ok(numbers) = numbers_of(alloc, queries) else {
                return Err(Memory);
            };
            let numbers = numbers.as_slice();
            answer_batch(
                alloc, desk, queries, numbers, least, closes, size, out, steps,
            )
        }
    }
}

// The snapshot that each query names, or 0 where it names none.
fn numbers_of(alloc: Global, queries: &[Query]) -> Result<Vec<u64>, Memory>
    ensures { IfOk result (λ v. v.items ≡ map number_in queries.now) }
{
    let mut numbers = Vec::with_capacity(alloc, queries.len())?;
    let mut rest = queries;
    while let [query, later @ ..] = rest {
        numbers.push(number_in(query))?;
        rest = later;
    }
    Ok(numbers)
}

fn number_in(query: &Query) -> u64
    ensures { result ≡ number_in query.now }
{
    match &query.page {
        None => 0,
        Some(token) => token.snapshot,
    }
}

fn answer_batch<D: Desk, L: Ledger>(
    alloc: Global,
    desk: &mut D,
    queries: &[Query],
    numbers: &[u64],
    least: u64,
    closes: bool,
    size: u32,
    out: &mut Out,
    steps: &mut Steps<L>,
) -> Result<Answered, Memory>
    requires numbers { numbers.now ≡ map number_in queries.now }
    requires few { length queries.now < 2 ^ 32 }
    ensures { ShowsAs (D.caller desk.old) (D.caller desk.new) (batch_reply (D.caller desk.old).settings.keep size closes (D.caller desk.new).front least queries.now) result }
{
    let Ok(found) = find_all(alloc, desk, numbers) else {
        return Err(Memory);
    };
    let newest = found.newest.number;
    if newest < least {
        let refusal = Refusal::SnapshotNotYet { least, newest };
        return refused(alloc, Sign::Looked, closes, &refusal);
    }
    reply_of(
        alloc,
        queries,
        &found.newest,
        found.kept.as_slice(),
        closes,
        size,
        out,
        steps,
    )
}

fn reply_of<L: Ledger>(
    alloc: Global,
    queries: &[Query],
    newest: &Newest,
    found: &[Kept],
    closes: bool,
    size: u32,
    out: &mut Out,
    steps: &mut Steps<L>,
) -> Result<Answered, Memory>
    requires { length queries.now < 2 ^ 32 }
    ensures { (keep : ℕ) (h : History) → AreFound keep h queries.now newest.now found.now
        → IfOk result (λ a. (a.sign ≡ Looked) × (a.reply ≡ pages_reply closes newest.now.number (answers_to keep size h queries.now))) }
{
    match pages(alloc, queries, newest, found, size, steps) {
        Ok(pages) => {
            let mut body = out.room(alloc)?;
            put_batch(&mut body, pages.as_slice())?;
            Ok(of_snapshot(closes, newest.number, ReplyBody::behind_room(body)))
        }
        Err(Stop::Refused(refusal)) => refused(alloc, Sign::Looked, closes, &refusal),
        Err(Stop::Memory) => Err(Memory),
    }
}

// The page of each query, or the first refusal.
fn pages<'a, L: Ledger>(
    alloc: Global,
    queries: &[Query],
    newest: &'a Newest,
    found: &'a [Kept],
    size: u32,
    steps: &mut Steps<L>,
) -> Result<Vec<Answer<'a>>, Stop<Refusal>>
    requires { length queries.now < 2 ^ 32 }
    ensures { (keep : ℕ) (h : History) → AreFound keep h queries.now newest.now found.now → Gives (λ v. map answer_in v.items) result (answers_to keep size h queries.now) }
{
    let mut pages = Vec::with_capacity(alloc, queries.len())?;
    let mut rest = queries;
    let mut left = found;
    let mut index = 0;
    while let [query, later @ ..] = rest {
        // One was found for each query.
        let [kept, others @ ..] = left else {
            return Err(Stop::Memory);
        };
        pages.push(page_at(alloc, query, index, newest, kept, size, steps)?)?;
        rest = later;
        left = others;
        index += 1;
    }
    Ok(pages)
}

// The page of the query with an index, or why there is none.
fn page_at<'a, L: Ledger>(
    alloc: Global,
    query: &Query,
    index: u32,
    newest: &'a Newest,
    kept: &'a Kept,
    size: u32,
    steps: &mut Steps<L>,
) -> Result<Answer<'a>, Stop<Refusal>>
    ensures { (keep : ℕ) (h : History) → IsNewest h newest.now → Finds keep h (number_in query.now) kept.now → Gives answer_in result (answer_at keep size h (index, query.now)) }
{
    match shown_at(query, index, newest, kept) {
        Ok((number, snapshot)) => match page(alloc, snapshot, number, query, size, steps) {
            Ok(answer) => Ok(answer),
            Err(_) => Err(Stop::Memory),
        },
        Err(refusal) => Err(Stop::Refused(refusal)),
    }
}

// The snapshot that answers it, with its number, or why none does.
fn shown_at<'a>(
    query: &Query,
    index: u32,
    newest: &'a Newest,
    kept: &'a Kept,
) -> Result<(u64, &'a Snapshot), Refusal>
    ensures { (keep : ℕ) (h : History) → IsNewest h newest.now → Finds keep h (number_in query.now) kept.now → ShownAt h (named_snapshot (Some index) keep h (named_by query.now.page)) result }
{
    let Some(token) = &query.page else {
        return Ok((newest.number, &newest.snapshot));
    };
    match kept {
        Kept::Here(snapshot) => Ok((token.snapshot, snapshot)),
        Kept::Gone { oldest } => Err(Refusal::SnapshotGone {
            index: Some(index),
            snapshot: token.snapshot,
            oldest: *oldest,
        }),
        Kept::Ahead { newest } => Err(Refusal::SnapshotAhead {
            index: Some(index),
            snapshot: token.snapshot,
            newest: *newest,
        }),
    }
}
