use book_desk::{Desk, GrowFault};
use commit_graph::{Graph, GraphFault};
use osv_prim::{CommitRow, Ledger, List, Memory, Oid, RepoKey, Steps};
use std::alloc::Global;
use std::sync::Arc;

// `dbc` is the row of d, whose parents are b and c; an id is forty times its letter.
fn row_of(alloc: Global, text: &str) -> Result<Option<CommitRow>, Memory> {
    let mut ids = List::new(alloc);
    for byte in text.as_bytes() {
        if let Ok(id) = Oid::read([*byte; 40].as_slice()) {
            ids.push(id)?;
        }
    }
    let Some(oid) = ids.as_slice().first() else {
        return Ok(None);
    };
    let mut parents = List::new(alloc);
    for parent in &ids.as_slice()[1..] {
        parents.push(*parent)?;
    }
    Ok(Some(CommitRow { oid: *oid, parents }))
}

// Rows with a space between them.
fn rows_of(alloc: Global, text: &str) -> Result<Vec<CommitRow>, Memory> {
    let mut rows = Vec::new(alloc);
    for part in text.split(' ') {
        if let Some(row) = row_of(alloc, part)? {
            rows.push(row)?;
        }
    }
    Ok(rows)
}

fn answer_of(alloc: Global, answer: Result<u64, GrowFault>) -> Result<String, Memory> {
    match answer {
        Ok(place) => Ok(format!(in alloc; "entry {place}")?),
        Err(GrowFault::RepoMoved { seen, now }) => {
            Ok(format!(in alloc; "moved from {seen} to {now}")?)
        }
        Err(GrowFault::JournalFull { used, limit }) => {
            Ok(format!(in alloc; "{used} of {limit} used")?)
        }
        Err(GrowFault::Memory) => Err(Memory),
    }
}

/// `URL`: how many Grows a repository has, and how many commits.
pub fn shown<D: Desk>(alloc: Global, desk: &mut D, url: &str) -> Result<String, Memory> {
    let key = RepoKey::normal(alloc, url)?;
    let (grows, graph) = desk.repo(&key)?;
    let commits = graph.len();
    Ok(format!(in alloc; "{grows} Grows, {commits} commits")?)
}

/// `URL ROWS`: the rows are joined to the repository's graph.
pub fn grown<D: Desk, L: Ledger>(
    alloc: Global,
    desk: &mut D,
    text: &str,
    steps: &mut Steps<L>,
) -> Result<String, Memory> {
    let (url, rest) = text.split_once(' ').unwrap_or((text, ""));
    let key = RepoKey::normal(alloc, url)?;
    let rows = rows_of(alloc, rest)?;
    let (version, graph) = desk.repo(&key)?;
    match graph.extend(alloc, rows.as_slice(), 100, steps) {
        Ok(larger) => {
            let larger = Arc::new(alloc, larger)?;
            answer_of(alloc, desk.grow(key, version, larger))
        }
        Err(GraphFault::Memory) => Err(Memory),
        Err(_) => Ok(String::from_str(alloc, "faulty rows")?),
    }
}

/// `URL ROWS`: the rows are joined to the graph without commits, as if the repository had no Grow.
pub fn made_anew<D: Desk, L: Ledger>(
    alloc: Global,
    desk: &mut D,
    text: &str,
    steps: &mut Steps<L>,
) -> Result<String, Memory> {
    let (url, rest) = text.split_once(' ').unwrap_or((text, ""));
    let key = RepoKey::normal(alloc, url)?;
    let rows = rows_of(alloc, rest)?;
    match Graph::empty(alloc)?.extend(alloc, rows.as_slice(), 100, steps) {
        Ok(graph) => {
            let graph = Arc::new(alloc, graph)?;
            answer_of(alloc, desk.grow(key, 0, graph))
        }
        Err(GraphFault::Memory) => Err(Memory),
        Err(_) => Ok(String::from_str(alloc, "faulty rows")?),
    }
}
