ghost use Rattle.std.specs.Prelude.{◌≡◌, List, Some, None, IfOk};
ghost use Rattle.history.specs.declared.past.Past.{Past};
ghost use Rattle.history.specs.Lookups.{record_of};
ghost use Rattle.snapshot.specs.Snapshots.{StandsFor};
ghost use Rattle.session_model.specs.Looks.{found_reply, vulns_reply};
ghost use Rattle.session_model.specs.declared.route.Route.TheVariants as routes;
ghost use Rattle.session_model.specs.declared.sign.Sign.TheVariants.{Looked};
ghost use Rattle.desk_answers.specs.Gives.{GivesAt};
ghost use Rattle.desk_answers.specs.Shown.{IsShownAs, ShownFor, ShowsAs};

use crate::reply::{Answered, of_snapshot, refused};
use crate::request::{id_of, least_of};
use book_desk::{Desk, Kept};
use desk_calls::{kept_of, newest_of};
use http_wire::{Out, ReplyBody, Request};
use osv_prim::Memory;
use reply_json::Refusal;
use session_model::Sign;
use snapshot::Snapshot;
use std::alloc::Global;
use std::sync::Arc;

/// The snapshot that answers a query, or why none does.
#[derive(Drop)]
pub(crate) enum Shown {
    Here {
        number: u64,
        snapshot: Arc<Snapshot>,
    },
    Not(Refusal),
}

/// Looks for the snapshot that answers: the one that is named, else the newest.
pub(crate) fn snapshot_for<D: Desk>(
    alloc: Global,
    desk: &mut D,
    least: u64,
    named: Option<u64>,
) -> Result<Shown, Memory>
    ensures { ShownFor (D.caller desk.old) least named result (D.caller desk.new) }
{
    match named {
        None => newest_for(alloc, desk, least),
        Some(number) => kept_for(alloc, desk, least, number),
    }
}

fn newest_for<D: Desk>(alloc: Global, desk: &mut D, least: u64) -> Result<Shown, Memory>
    ensures { ShownFor (D.caller desk.old) least None result (D.caller desk.new) }
{
    let Ok(now) = newest_of(alloc, desk) else {
        return Err(Memory);
    };
    if now.number < least {
        return Ok(Shown::Not(Refusal::SnapshotNotYet {
            least,
            newest: now.number,
        }));
    }
    Ok(Shown::Here {
        number: now.number,
        snapshot: now.snapshot,
    })
}

fn kept_for<D: Desk>(alloc: Global, desk: &mut D, least: u64, number: u64) -> Result<Shown, Memory>
    ensures { ShownFor (D.caller desk.old) least (Some number) result (D.caller desk.new) }
{
    let Ok(found) = kept_of(alloc, desk, number) else {
        return Err(Memory);
    };
    if found.newest < least {
        return Ok(Shown::Not(Refusal::SnapshotNotYet {
            least,
            newest: found.newest,
        }));
    }
    Ok(told_of(None, number, found.kept))
}

// What a snapshot's number finds, as a query is told.
pub(crate) fn told_of(index: Option<u32>, number: u64, kept: Kept) -> Shown
    ensures { IsShownAs index number kept result }
{
    match kept {
        Kept::Here(snapshot) => Shown::Here { number, snapshot },
        Kept::Gone { oldest } => Shown::Not(Refusal::SnapshotGone {
            index,
            snapshot: number,
            oldest,
        }),
        Kept::Ahead { newest } => Shown::Not(Refusal::SnapshotAhead {
            index,
            snapshot: number,
            newest,
        }),
    }
}

/// Answers with the advisory that a path names.
pub(crate) fn vulns<D: Desk>(
    alloc: Global,
    desk: &mut D,
    request: &Request,
    closes: bool,
    out: &mut Out,
) -> Result<Answered, Memory>
    ensures { GivesAt (D.caller desk.old) (D.caller desk.new) closes request.now routes.Vulns result }
{
    let _known = desk.point();
    let Some(least) = least_of(&request.min) else {
        return refused(alloc, Sign::Plain, closes, &Refusal::BadMinSnapshot);
    };
    let Ok(id) = id_of(alloc, request.path.as_slice()) else {
        return Err(Memory);
    };
    find(alloc, desk, id.as_slice(), least, closes, out)
}

fn find<D: Desk>(
    alloc: Global,
    desk: &mut D,
    id: &[u8],
    least: u64,
    closes: bool,
    out: &mut Out,
) -> Result<Answered, Memory>
    ensures { ShowsAs (D.caller desk.old) (D.caller desk.new) (vulns_reply closes (D.caller desk.new).front least id.now) result }
{
    let Ok(now) = newest_of(alloc, desk) else {
        return Err(Memory);
    };
    if now.number < least {
        let refusal = Refusal::SnapshotNotYet {
            least,
            newest: now.number,
        };
        return refused(alloc, Sign::Looked, closes, &refusal);
    }
    found(alloc, &now.snapshot, now.number, id, closes, out)
}

fn found(
    alloc: Global,
    snapshot: &Snapshot,
    number: u64,
    id: &[u8],
    closes: bool,
    out: &mut Out,
) -> Result<Answered, Memory>
    ensures { (p : List Past) → StandsFor snapshot.now p → IfOk result (λ a. (a.sign ≡ Looked) × (a.reply ≡ found_reply closes number (record_of p id.now))) }
{
    match snapshot.find(id) {
        Some(advisory) => {
            let mut body = out.room(alloc)?;
            body.extend_from_slice(advisory.text.as_slice())?;
            Ok(of_snapshot(closes, number, ReplyBody::behind_room(body)))
        }
        None => refused(alloc, Sign::Looked, closes, &Refusal::NoSuchId),
    }
}
