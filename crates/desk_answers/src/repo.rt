ghost use Rattle.std.specs.Prelude.{◌≡◌, ◌≤◌, ◌+◌, [], ℕ, List, length, vec_len, vec_capacity};
ghost use Rattle.history.specs.Conditions.{IsOfVersion};
ghost use Rattle.http_wire.specs.Requests.{with_bytes};
ghost use Rattle.reply_json.specs.Bodies.{commits_body};
ghost use Rattle.session_model.specs.declared.route.Route.TheVariants as routes;
ghost use Rattle.desk_answers.specs.Gives.{GivesAt};
ghost use Rattle.desk_answers.specs.Joining.{GrowsAs, JoinsAs};
ghost use Rattle.stream_body.specs.Streams.{Comes};

use crate::put::put;
use crate::reply::{Answered, done, refused};
use crate::request::key_of;
use book_desk::{Desk, GrowFault};
use commit_graph::{Graph, GraphFault};
use desk_calls::{grow_of, repo_of};
use fast_export::StreamFault;
use http_wire::Request;
use itoa::Buffer;
use osv_prim::{CommitRow, Ledger, Memory, RepoKey, Steps};
use reply_json::Refusal;
use session_model::Sign;
use std::alloc::Global;
use std::sync::Arc;
use stream_body::Commits;

/// Joins the commits of a body to the repository that the query names, which may have `most` then.
pub(crate) fn repo<D: Desk, L: Ledger>(
    alloc: Global,
    desk: &mut D,
    request: &Request,
    come: Commits,
    closes: bool,
    most: u32,
    steps: &mut Steps<L>,
) -> Result<Answered, Memory>
    requires { most ≡ (D.caller desk.old).settings.commits }
    ensures { (body : List ℕ) → Comes most body come → GivesAt (D.caller desk.old) (D.caller desk.new) closes (with_bytes request.now body) routes.Repo result }
{
    let _known = desk.point();
    let Ok(named) = key_of(alloc, request.query.as_slice()) else {
        return Err(Memory);
    };
    let Some(key) = named else {
        return refused(alloc, Sign::Plain, closes, &Refusal::RepoMissing);
    };
    match come {
        Ok(rows) => join(alloc, desk, key, rows.as_slice(), closes, most, steps),
        Err(StreamFault::Memory) => Err(Memory),
        Err(fault) => refused(alloc, Sign::Plain, closes, &Refusal::BadStream(fault)),
    }
}

// Joins commits to the graph of a repository, outside the desk's calls, and enters what it lacked.
fn join<D: Desk, L: Ledger>(
    alloc: Global,
    desk: &mut D,
    key: RepoKey,
    rows: &[CommitRow],
    closes: bool,
    most: u32,
    steps: &mut Steps<L>,
) -> Result<Answered, Memory>
    ensures { JoinsAs (D.caller desk.old) (D.caller desk.new) closes key most rows.now result }
{
    let Ok((version, graph)) = repo_of(desk, &key) else {
        return Err(Memory);
    };
    match graph.extend(alloc, rows, most, steps) {
        Ok(whole) => grow(alloc, desk, key, version, whole, closes),
        Err(GraphFault::Memory) => Err(Memory),
        Err(fault) => refused(alloc, Sign::Looked, closes, &Refusal::BadGraph(fault)),
    }
}

/// How many bytes the reply to commits has at most.
const COMMITS_ROOM: usize = 61;

// Enters what a repository lacks of a graph. The room for the reply is taken before, since nothing may
// fail behind the entry.
fn grow<D: Desk>(
    alloc: Global,
    desk: &mut D,
    key: RepoKey,
    version: u64,
    whole: Graph,
    closes: bool,
) -> Result<Answered, Memory>
    requires { IsOfVersion key version whole (D.caller desk.old).front }
    ensures { GrowsAs (D.caller desk.old) (D.caller desk.new) closes key version whole result }
{
    let _known = desk.point();
    let commits = whole.len();
    let Ok(room) = Vec::with_capacity(alloc, COMMITS_ROOM) else {
        return Err(Memory);
    };
    let Ok(whole) = Arc::new(alloc, whole) else {
        return Err(Memory);
    };
    match grow_of(desk, key, version, whole) {
        Ok(place) => Ok(done(Sign::Plain, closes, commits_text(room, place, commits))),
        Err(GrowFault::RepoMoved { seen, now }) => refused(
            alloc,
            Sign::Moved { seen },
            closes,
            &Refusal::RepoMoved { seen, now },
        ),
        Err(GrowFault::JournalFull { used, limit }) => refused(
            alloc,
            Sign::Plain,
            closes,
            &Refusal::JournalFull { used, limit },
        ),
        Err(GrowFault::Memory) => Err(Memory),
    }
}

fn commits_text(mut room: Vec<u8>, place: u64, commits: u32) -> Vec<u8>
    requires empty { vec_len room ≡ 0 }
    requires items { room.items ≡ [] }
    requires capacity { 61 ≤ vec_capacity room }
    ensures { result.items ≡ commits_body place commits }
{
    let mut buffer = Buffer::new();
    put(&mut room, b"{\"entry\":");
    put(&mut room, buffer.format(place).as_bytes());
    put(&mut room, b",\"commits\":");
    put(&mut room, buffer.format(commits).as_bytes());
    put(&mut room, b"}");
    room
}
