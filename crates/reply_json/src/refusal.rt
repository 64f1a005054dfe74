ghost use Rattle.std.specs.Prelude.{◌≡◌, IfOk, string_bytes};
ghost use Rattle.reply_json.specs.Refusals.{body_of, message_of, numbered, query_at, refusal_body, two_snapshots};

use commit_graph::GraphFault;
use fast_export::StreamFault;
use osv_prim::Memory;
use osv_record::RecordFault;
use query_json::BatchFault;
use std::alloc::{AllocError, Global};

/// Why a request that was read is refused.
#[derive(Clone, Copy, Debug, PartialEq, Eq)]
pub enum Refusal {
    /// There is nothing under its path.
    NoSuchPath,
    /// Its path is asked by another method.
    MethodNotAllowed,
    /// No advisory of the newest snapshot has the id.
    NoSuchId,
    /// The body is no advisory.
    BadAdvisory(RecordFault),
    /// The body is no query, or no batch; of a batch the fault has the index of the query.
    BadQuery(BatchFault),
    /// The body is no stream of commits.
    BadStream(StreamFault),
    /// The commits of the stream don't fit the repository's.
    BadGraph(GraphFault),
    /// The snapshot of a page token is kept no more. In a batch `index` is that of the query, from 0.
    SnapshotGone {
        index: Option<u32>,
        snapshot: u64,
        oldest: u64,
    },
    /// The snapshot of a page token is not published yet.
    SnapshotAhead {
        index: Option<u32>,
        snapshot: u64,
        newest: u64,
    },
    /// The snapshot that the client wants at least is not published yet.
    SnapshotNotYet {
        least: u64,
        newest: u64,
    },
    /// The repository's commits grew while the request was looked at: how often before, and now.
    RepoMoved {
        seen: u64,
        now: u64,
    },
    /// The history has no room for the entry: its weight so far, and the limit.
    JournalFull {
        used: u64,
        limit: u64,
    },
    /// The request for a repository names none.
    RepoMissing,
    /// The header `x-osv-min-snapshot` is no number of 64 bits.
    BadMinSnapshot,
}

impl Refusal {
    ghost use Rattle.reply_json.specs.Refusals.{code_of, status_of};

    /// The number under which it is told.
    pub fn code(&self) -> u8
        ensures { result ≡ code_of self.now }
    {
        match self {
            Refusal::NoSuchPath => 9,
            Refusal::MethodNotAllowed => 10,
            Refusal::NoSuchId => 11,
            Refusal::BadAdvisory(_) => 12,
            Refusal::BadQuery(_) => 13,
            Refusal::BadStream(_) => 14,
            Refusal::BadGraph(_) => 15,
            Refusal::SnapshotGone { .. } => 16,
            Refusal::SnapshotAhead { .. } => 17,
            Refusal::SnapshotNotYet { .. } => 18,
            Refusal::RepoMoved { .. } => 19,
            Refusal::JournalFull { .. } => 20,
            Refusal::RepoMissing => 21,
            Refusal::BadMinSnapshot => 23,
        }
    }

    /// The status of its reply (RFC 9110, 15).
    pub fn status(&self) -> u16
        ensures { result ≡ status_of self.now }
    {
        match self {
            Refusal::NoSuchPath | Refusal::NoSuchId => 404,
            Refusal::MethodNotAllowed => 405,
            Refusal::BadAdvisory(_)
            | Refusal::BadQuery(_)
            | Refusal::BadStream(_)
            | Refusal::BadGraph(_)
            | Refusal::SnapshotAhead { .. }
            | Refusal::RepoMissing
            | Refusal::BadMinSnapshot => 400,
            Refusal::SnapshotNotYet { .. } | Refusal::RepoMoved { .. } => 409,
            Refusal::SnapshotGone { .. } => 410,
            Refusal::JournalFull { .. } => 507,
        }
    }
}

fn query_at(alloc: Global, index: Option<u32>) -> Result<String, AllocError>
    ensures { IfOk result (λ t. string_bytes t ≡ query_at index) }
{
    match index {
        Some(index) => format!(in alloc; "query {index}: "),
        None => Ok(String::new(alloc)),
    }
}

fn numbered(alloc: Global, what: &str, code: u8, name: &str) -> Result<String, AllocError>
    ensures { IfOk result (λ t. string_bytes t ≡ numbered what.now code name.now) }
{
    format!(in alloc; "{what} refused: {code} {name}")
}

fn bad_advisory(alloc: Global, fault: &RecordFault) -> Result<String, AllocError>
    ensures { IfOk result (λ t. string_bytes t ≡ message_of (Refusal.BadAdvisory fault.now)) }
{
    numbered(alloc, "record", fault.code(), fault.name())
}

fn bad_query(alloc: Global, fault: &BatchFault) -> Result<String, AllocError>
    ensures { IfOk result (λ t. string_bytes t ≡ message_of (Refusal.BadQuery fault.now)) }
{
    let at = query_at(alloc, fault.index)?;
    let refused = numbered(alloc, "query", fault.fault.code(), fault.fault.name())?;
    format!(in alloc; "{at}{refused}")
}

fn bad_stream(alloc: Global, fault: &StreamFault) -> Result<String, AllocError>
    ensures { IfOk result (λ t. string_bytes t ≡ message_of (Refusal.BadStream fault.now)) }
{
    let refused = numbered(alloc, "stream", fault.code(), fault.name())?;
    let at = fault.at();
    format!(in alloc; "{refused} at {at}")
}

fn bad_graph(alloc: Global, fault: &GraphFault) -> Result<String, AllocError>
    ensures { IfOk result (λ t. string_bytes t ≡ message_of (Refusal.BadGraph fault.now)) }
{
    let refused = numbered(alloc, "graph", fault.code(), fault.name())?;
    let row = fault.row();
    format!(in alloc; "{refused} at row {row}")
}

fn gone(alloc: Global, index: Option<u32>, snapshot: u64, oldest: u64) -> Result<String, AllocError>
    ensures { IfOk result (λ t. string_bytes t ≡ message_of (Refusal.SnapshotGone index snapshot oldest)) }
{
    let at = query_at(alloc, index)?;
    format!(in alloc; "{at}snapshot {snapshot} gone, oldest {oldest}")
}

fn ahead(
    alloc: Global,
    index: Option<u32>,
    snapshot: u64,
    newest: u64,
) -> Result<String, AllocError>
    ensures { IfOk result (λ t. string_bytes t ≡ message_of (Refusal.SnapshotAhead index snapshot newest)) }
{
    let at = query_at(alloc, index)?;
    format!(in alloc; "{at}snapshot {snapshot} ahead, newest {newest}")
}

fn message_of(alloc: Global, refusal: &Refusal) -> Result<String, AllocError>
    ensures { IfOk result (λ t. string_bytes t ≡ message_of refusal.now) }
{
    match *refusal {
        Refusal::NoSuchPath => String::from_str(alloc, "no such path"),
        Refusal::MethodNotAllowed => String::from_str(alloc, "method not allowed"),
        Refusal::NoSuchId => String::from_str(alloc, "no such id"),
        Refusal::BadAdvisory(fault) => bad_advisory(alloc, &fault),
        Refusal::BadQuery(fault) => bad_query(alloc, &fault),
        Refusal::BadStream(fault) => bad_stream(alloc, &fault),
        Refusal::BadGraph(fault) => bad_graph(alloc, &fault),
        Refusal::SnapshotGone {
            index,
            snapshot,
            oldest,
        } => gone(alloc, index, snapshot, oldest),
        Refusal::SnapshotAhead {
            index,
            snapshot,
            newest,
        } => ahead(alloc, index, snapshot, newest),
        Refusal::SnapshotNotYet { least, newest } => {
            format!(in alloc; "snapshot {least} not yet, newest {newest}")
        }
        Refusal::RepoMoved { seen, now } => format!(in alloc; "repo moved, seen {seen} now {now}"),
        Refusal::JournalFull { used, limit } => {
            format!(in alloc; "journal full, used {used} limit {limit}")
        }
        Refusal::RepoMissing => String::from_str(alloc, "repo missing"),
        Refusal::BadMinSnapshot => String::from_str(alloc, "bad x-osv-min-snapshot"),
    }
}

/// The body of a refusal, of its number and its message, which wants no escapes in JSON.
pub fn body_of(alloc: Global, code: u8, message: &str) -> Result<Vec<u8>, Memory>
    ensures { IfOk result (λ b. b.items ≡ body_of code message.now) }
{
    Ok(format!(in alloc; "{{\"code\":{code},\"message\":\"{message}\"}}")?.into_bytes())
}

/// The body of the reply to a request that is refused.
pub fn refusal_body(alloc: Global, refusal: &Refusal) -> Result<Vec<u8>, Memory>
    ensures { IfOk result (λ b. b.items ≡ refusal_body refusal.now) }
{
    let message = message_of(alloc, refusal)?;
    body_of(alloc, refusal.code(), message.as_str())
}
