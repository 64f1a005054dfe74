use commit_graph::Graph;
use osv_prim::RepoKey;
use osv_record::Record;
use std::sync::Arc;

/// An entry of a book. What a book and its snapshots have of an advisory or a graph they share.
#[derive(Drop)]
pub enum Entry {
    /// The caller `by` imported an advisory.
    Import {
        by: u64,
        advisory: Arc<Record>,
    },
    /// The caller `by` added rows to the graph of a repository: those of `graph`, which is the whole graph
    /// after them, from number `from` on.
    Grow {
        by: u64,
        key: RepoKey,
        graph: Arc<Graph>,
        from: u32,
    },
    /// The caller `by` published the first `upto` imports.
    Publish {
        by: u64,
        upto: u64,
    },
}
