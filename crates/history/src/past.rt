use osv_prim::{CommitRow, List, RepoKey};
use osv_record::Record;

/// An entry of a history, as contracts see it: by whom it is, and what it says. No value of it is
/// made: what is kept in memory shares its advisories and graphs, and stands for entries of this kind.
#[derive(Drop)]
pub enum Past {
    /// An advisory came.
    Import {
        by: u64,
        advisory: Record,
    },
    /// Rows came that are new to the graph of a repository.
    Grow {
        by: u64,
        key: RepoKey,
        rows: List<CommitRow>,
    },
    /// The first `upto` imports, of advisories and of rows, were published as the next snapshot.
    Publish {
        by: u64,
        upto: u64,
    },
}
