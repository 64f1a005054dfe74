ghost use Rattle.std.specs.Prelude.{◌≡◌, ◌↔◌, ◌+◌, ◌-◌, ◌^◌, ◌<◌, ◌∷◌, [], ◌++◌, length, map, min, option_map, slice_get, All, IfOk, IfSome, IsTrue, is_some, false};
ghost use Rattle.osv_prim.specs.Graphs.{has, number_of, id_at, parents_at, IsLegal};
ghost use Rattle.commit_graph.specs.Linked.{weight_of};

use crate::segment::Segment;
use crate::segments::{merged, number_in, place_of, shared, small_from};
use osv_prim::{CommitRow, Ledger, Memory, Oid, Steps};
use std::alloc::Global;
use std::marker::Model;
use std::sync::Arc;

/// Commits with their parents (git's documentation, "gitglossary": commit, parent), fewer than 2^32.
/// Contracts see the list of their rows: ids differ, and each parent is the id of an earlier row. The
/// rows are numbered from 0. What a row says is read only with a counter of steps. Graphs that grew from
/// one another share their older rows.
#[derive(Drop)]
pub struct Graph {
    // Rows one after another, the largest segments first.
    segments: Vec<Arc<Segment>>,
    // Rows behind those, while a graph grows. A graph that is done has none.
    fresh: Segment,
    count: u32,
    weight: u64,
}

impl Model for Graph {
    ghost use Rattle.std.specs.Prelude.{List};
    ghost use Rattle.osv_prim.specs.declared.oid.CommitRow.{CommitRow};
    ghost use Rattle.commit_graph.specs.Linked.{IsGraph};
    ghost use Rattle.commit_graph.specs.Segments.{seen, rows_of, numbers_of};

    ghost Value = { List CommitRow };

    ghost view = { λ g. rows_of (seen g.segments.items) g.fresh };

    ghost invariant = { λ g. IsGraph (rows_of (seen g.segments.items) g.fresh) (numbers_of (seen g.segments.items) g.fresh) g.count g.weight };
}

impl Graph {
    /// The graph without commits. Only want of memory is refused.
    pub fn empty(alloc: Global) -> Result<Graph, Memory>
        ensures { IfOk result (λ g. g ≡ []) }
    {
        Graph::with_capacity(alloc, 0)
    }

    /// The graph without commits, with room for so many.
    pub(crate) fn with_capacity(alloc: Global, count: usize) -> Result<Graph, Memory>
        ensures { IfOk result (λ g. g ≡ []) }
    {
        Ok(Graph {
            segments: Vec::new(alloc),
            fresh: Segment::with_capacity(alloc, count)?,
            count: 0,
            weight: 0,
        })
    }

    /// How many commits there are. Its contract also tells that the graph is legal.
    pub fn len(&self) -> u32
        ensures len { result ≡ length self.now }
        ensures legal { IsLegal self.now }
    {
        self.count
    }

    /// Whether there are no commits.
    pub fn is_empty(&self) -> bool
        ensures { IsTrue result ↔ (length self.now ≡ 0) }
    {
        self.count == 0
    }

    /// What the graph weighs, by which the commits of a store are limited: 64 for each row and 32 for each
    /// parent, at most 2^64 - 1.
    pub fn weight(&self) -> u64
        ensures { result ≡ min (weight_of self.now) (2 ^ 64 - 1) }
    {
        self.weight
    }

    /// The number of a commit's row, where the graph has the commit. It is found by the commit's id,
    /// without a step through the graph.
    pub fn number_of(&self, oid: &Oid) -> Option<u32>
        ensures number { result ≡ number_of self.now oid.now }
        ensures found { is_some result ≡ has self.now oid.now }
        ensures within { IfSome result (λ n. n < length self.now) }
        ensures row { IfSome result (λ n. id_at self.now n ≡ oid.now) }
        ensures legal { IsLegal self.now }
    {
        number_in(self.segments.as_slice(), &self.fresh, oid)
    }

    /// The row with a number, from 0. It counts one graph step.
    pub fn row_at<L: Ledger>(&self, number: u32, steps: &mut Steps<L>) -> &CommitRow
        requires { number < length self.now }
        ensures row { slice_get self.now number ≡ Some result.now }
        ensures steps { steps.new ≡ record steps.old { graph = steps.old.graph + 1 } }
    {
        steps.graph_tick();
        let (segment, index) = place_of(self.segments.as_slice(), &self.fresh, number as usize);
        segment.row(index)
    }

    /// The numbers of the parents of the row with a number, in the row's order, each below its own. It
    /// counts one graph step.
    pub fn parents_at<L: Ledger>(&self, number: u32, steps: &mut Steps<L>) -> &[u32]
        requires { number < length self.now }
        ensures parents { map (id_at self.now) result.now ≡ parents_at self.now number }
        ensures earlier { All (λ p. p < number) result.now }
        ensures steps { steps.new ≡ record steps.old { graph = steps.old.graph + 1 } }
    {
        steps.graph_tick();
        let (segment, index) = place_of(self.segments.as_slice(), &self.fresh, number as usize);
        segment.numbers(index)
    }

    /// The same graph, with room for so many rows more. It shares the rows that are in segments.
    pub(crate) fn copy(&self, alloc: Global, room: usize) -> Result<Graph, Memory>
        ensures { IfOk result (λ g. g ≡ self.now) }
    {
        let fresh = Segment::with_capacity(alloc, room)?;
        Ok(Graph {
            segments: shared(alloc, self.segments.as_slice())?,
            fresh: fresh.with_rows(alloc, &self.fresh)?,
            count: self.count,
            weight: self.weight,
        })
    }

    /// The same graph, whose fresh rows are in a segment, with those of small segments before them.
    pub(crate) fn sealed(self, alloc: Global) -> Result<Graph, Memory>
        ensures { IfOk result (λ g. g ≡ self) }
    {
        let Graph {
            mut segments,
            fresh,
            count,
            weight,
        } = self;
        let (from, room) = small_from(segments.as_slice(), fresh.len(), count as usize);
        let last = merged(alloc, segments.as_slice(), from, room, fresh)?;
        segments.truncate(from);
        segments.push(Arc::new(alloc, last)?)?;
        Ok(Graph {
            segments,
            fresh: Segment::with_capacity(alloc, 0)?,
            count,
            weight,
        })
    }

    /// Puts a row at the end, whose parents have these numbers.
    pub(crate) fn with_row(self, row: CommitRow, numbers: &[u32]) -> Result<Graph, Memory>
        requires absent { has self row.oid ≡ false }
        requires parents { map (id_at self) numbers.now ≡ row.parents }
        requires earlier { All (λ p. p < length self) numbers.now }
        requires room { length self + 1 < 2 ^ 32 }
        ensures { IfOk result (λ g. g ≡ self ++ row ∷ []) }
    {
        let Graph {
            segments,
            fresh,
            count,
            weight,
        } = self;
        let parents = (numbers.len() as u64).saturating_mul(32);
        Ok(Graph {
            segments,
            fresh: fresh.with_row(row, numbers)?,
            count: count + 1,
            weight: weight.saturating_add(parents.saturating_add(64)),
        })
    }
}
