use crate::{number, values};
use commit_graph::GraphFault;
use fast_export::StreamFault;
use osv_record::Record;
use query_json::{BatchFault, read_batch, read_query};
use reply_json::Refusal;
use std::alloc::Global;

// The index of a query, or none.
fn index_in(text: &str) -> Option<u32> {
    match text.parse::<u32>() {
        Ok(index) => Some(index),
        Err(_) => None,
    }
}

// Why a body is refused, where it is.
fn body_refused(alloc: Global, word: &str, body: &str) -> Option<Refusal> {
    match word {
        "advisory" => match Record::read(alloc, body.as_bytes()) {
            Ok(_) => None,
            Err(fault) => Some(Refusal::BadAdvisory(fault)),
        },
        "query" => match read_query(alloc, body.as_bytes()) {
            Ok(_) => None,
            Err(fault) => Some(Refusal::BadQuery(BatchFault { index: None, fault })),
        },
        "queries" => match read_batch(alloc, body.as_bytes()) {
            Ok(_) => None,
            Err(fault) => Some(Refusal::BadQuery(fault)),
        },
        _ => None,
    }
}

// The refusals of two numbers.
fn by_numbers(word: &str, first: u64, second: u64) -> Option<Refusal> {
    match word {
        "not yet" => Some(Refusal::SnapshotNotYet {
            least: first,
            newest: second,
        }),
        "moved" => Some(Refusal::RepoMoved {
            seen: first,
            now: second,
        }),
        "full" => Some(Refusal::JournalFull {
            used: first,
            limit: second,
        }),
        "stream" => Some(Refusal::BadStream(StreamFault::Ended { at: first })),
        "graph" => Some(Refusal::BadGraph(GraphFault::UnknownParent { row: first })),
        _ => None,
    }
}

// The refusals of the snapshot that a page token names.
fn by_token(word: &str, index: Option<u32>, snapshot: u64, other: u64) -> Option<Refusal> {
    match word {
        "gone" => Some(Refusal::SnapshotGone {
            index,
            snapshot,
            oldest: other,
        }),
        "ahead" => Some(Refusal::SnapshotAhead {
            index,
            snapshot,
            newest: other,
        }),
        _ => None,
    }
}

/// The refusal that a line asks for, where it asks for one: `gone|INDEX|SNAPSHOT|OLDEST`, `query|BODY`
/// and the like.
pub fn refusal_in(alloc: Global, line: &str) -> Option<Refusal> {
    let (word, rest) = line.split_once('|').unwrap_or((line, ""));
    let (first, second, third) = values(rest);
    match word {
        "no such path" => Some(Refusal::NoSuchPath),
        "method not allowed" => Some(Refusal::MethodNotAllowed),
        "no such id" => Some(Refusal::NoSuchId),
        "repo missing" => Some(Refusal::RepoMissing),
        "bad min snapshot" => Some(Refusal::BadMinSnapshot),
        "advisory" | "query" | "queries" => body_refused(alloc, word, rest),
        "gone" | "ahead" => by_token(word, index_in(first), number(second), number(third)),
        _ => by_numbers(word, number(first), number(second)),
    }
}
