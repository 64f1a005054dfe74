ghost use Rattle.std.specs.Prelude.{◌≡◌, ◌≢◌, ◌<◌, ◌∷◌, [], ◌++◌, length, slice_get, slice_index_or, sum_by, AllPairs, IfOk, Some, false};
ghost use Rattle.osv_prim.specs.Graphs.{ids, has, number_of};

use indexmap::IndexSet;
use osv_prim::{CommitRow, Lists, Memory, Oid};
use std::alloc::Global;
use std::marker::Model;

/// Rows that stand one after another in a graph, with what is kept of them. Numbers of parents are those
/// in the graph; the rows themselves are counted from 0.
#[derive(Drop)]
pub(crate) struct Segment {
    rows: Vec<CommitRow>,
    // The ids of the rows, in their order.
    ids: IndexSet<Oid>,
    // The numbers of each row's parents.
    parents: Lists<u32>,
}

impl Model for Segment {
    ghost use Rattle.commit_graph.specs.Segments.{Part, IsSegment};

    ghost Value = { Part };

    ghost view = { λ s. record { rows = s.rows.items; numbers = s.parents } };

    ghost invariant = { λ s. IsSegment s.rows.items s.ids.keys s.parents };
}

impl Segment {
    /// No row, with room for so many.
    pub(crate) fn with_capacity(alloc: Global, count: usize) -> Result<Segment, Memory>
        ensures rows { IfOk result (λ s. s.rows ≡ []) }
        ensures numbers { IfOk result (λ s. s.numbers ≡ []) }
    {
        Ok(Segment {
            rows: Vec::with_capacity(alloc, count)?,
            ids: IndexSet::with_capacity(alloc, count)?,
            parents: Lists::with_capacity(alloc, count, count)?,
        })
    }

    /// How many rows there are.
    pub(crate) fn len(&self) -> usize
        ensures rows { result ≡ length self.now.rows }
        ensures numbers { result ≡ length self.now.numbers }
    {
        self.rows.len()
    }

    /// The index of a commit's row.
    pub(crate) fn number_of(&self, oid: &Oid) -> Option<usize>
        ensures { result ≡ number_of self.now.rows oid.now }
    {
        self.ids.get_index_of(oid)
    }

    /// The row at an index.
    pub(crate) fn row(&self, index: usize) -> &CommitRow
        requires { index < length self.now.rows }
        ensures { slice_get self.now.rows index ≡ Some result.now }
    {
        &self.rows[index]
    }

    /// The numbers of the parents of the row at an index.
    pub(crate) fn numbers(&self, index: usize) -> &[u32]
        requires { index < length self.now.rows }
        ensures { result.now ≡ slice_index_or self.now.numbers index [] }
    {
        self.parents.at(index)
    }

    /// Puts a row at the end, whose parents have these numbers.
    pub(crate) fn with_row(self, row: CommitRow, numbers: &[u32]) -> Result<Segment, Memory>
        requires { has self.rows row.oid ≡ false }
        ensures rows { IfOk result (λ s. s.rows ≡ self.rows ++ row ∷ []) }
        ensures numbers { IfOk result (λ s. s.numbers ≡ self.numbers ++ numbers.now ∷ []) }
    {
        let Segment {
            mut rows,
            mut ids,
            mut parents,
        } = self;
        parents.push(numbers)?;
        let _ = ids.insert(row.oid)?;
        rows.push(row)?;
        Ok(Segment { rows, ids, parents })
    }

    /// Puts copies of another segment's rows at the end.
    pub(crate) fn with_rows(self, alloc: Global, other: &Segment) -> Result<Segment, Memory>
        requires { AllPairs (λ a b. a ≢ b) (ids (self.rows ++ other.now.rows)) }
        ensures rows { IfOk result (λ s. s.rows ≡ self.rows ++ other.now.rows) }
        ensures numbers { IfOk result (λ s. s.numbers ≡ self.numbers ++ other.now.numbers) }
    {
        let Segment {
            mut rows,
            mut ids,
            mut parents,
        } = self;
        for index in 0..other.len() {
            let row = other.row(index).copy(alloc)?;
            parents.push(other.numbers(index))?;
            let _ = ids.insert(row.oid)?;
            rows.push(row)?;
        }
        Ok(Segment { rows, ids, parents })
    }
}
