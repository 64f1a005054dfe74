use commit_graph::GraphFault;
use osv_prim::{CommitRow, Id, List, RepoKey, Subject};
use osv_record::Record;
use snapshot::Page;
use std::sync::Arc;

/// One call of a book by a caller.
#[derive(Drop)]
pub enum Step {
    /// A further caller.
    Enrol,
    /// An advisory is imported.
    Import {
        by: u64,
        advisory: Arc<Record>,
    },
    /// Rows are joined to the graph of a repository.
    Grow {
        by: u64,
        key: RepoKey,
        rows: List<CommitRow>,
    },
    /// A snapshot of all imports is wanted.
    Pull {
        by: u64,
    },
    /// Work is asked for.
    Take {
        by: u64,
    },
    /// The caller's job is done and handed in.
    Work {
        by: u64,
    },
    /// The caller's job is handed back.
    Back {
        by: u64,
    },
    /// A page of the hits that are above an id, of a snapshot or of the newest one.
    Look {
        by: u64,
        subject: Subject,
        named: Option<u64>,
        after: Option<Id>,
    },
}

/// What a step answers.
#[derive(Drop)]
pub enum Answer {
    /// The caller's number.
    Caller(u64),
    /// The place of the entry, from 0.
    Entry(u64),
    /// A job of the build that is open; the caller has it from now on.
    Got,
    /// The newest snapshot, and how many imports it is of: all of them.
    Reached { snapshot: u64, upto: u64 },
    /// So many jobs are out, and none is free.
    Out(u64),
    /// The same, or no build is open.
    Nothing(u64),
    /// The build goes on.
    Going,
    /// The number of the snapshot that was published.
    Published(u64),
    /// A page of hits.
    Page(Page),
    /// The snapshot is kept no longer; the oldest that is.
    Gone(u64),
    /// The snapshot isn't published yet; the newest that is.
    Ahead(u64),
    /// The step is refused, and changes nothing.
    Refused(PlayFault),
}

/// Why a step is refused.
#[derive(Clone, Copy, Debug, PartialEq, Eq)]
pub enum PlayFault {
    /// The caller's number was not given.
    NoCaller,
    /// The caller has a job.
    HasJob,
    /// The caller has no job.
    NoJob,
    /// The first faulty row.
    Graph(GraphFault),
    /// The entries weigh `used` bytes, and with this one they would weigh more than `limit`.
    Full { used: u64, limit: u64 },
    /// 2^63 numbers were given.
    CallersSpent,
}
