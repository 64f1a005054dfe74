ghost use Rattle.std.specs.Prelude.{◌≡◌, ◌+◌, ◌-◌, ◌<◌, ◌≤◌, ◌&&◌, ◌||◌, ℕ, not, length, take, true, false, All, IfOk, slice_index_or};
ghost use Rattle.std.specs.List.Sorted.{IsNonDecreasing};
ghost use Rattle.osv_prim.specs.Graphs.{id_at, is_named};
ghost use Rattle.osv_prim.specs.declared.event.EventKind.TheVariants.{Limit};
ghost use Rattle.impact_set.specs.Passing.{AreNumbers, has_number};
ghost use Rattle.impact_set.specs.Standing.{AreBefore};

use crate::bits::Bits;
use crate::named::{is_among, numbers_named};
use commit_graph::Graph;
use osv_prim::{Event, EventKind, Ledger, Memory, Steps};
use std::alloc::Global;

/// For each row, whether its commit stands before a limit, where that is known of the first rows.
pub(crate) fn before_rows<L: Ledger>(
    alloc: Global,
    old: &Bits,
    events: &[Event],
    graph: &Graph,
    steps: &mut Steps<L>,
) -> Result<Bits, Memory>
    requires within { length old.now ≤ length graph.now }
    requires old { AreBefore events.now (take (length old.now) graph.now) old.now }
    ensures before { IfOk result (λ v. AreBefore events.now graph.now v) }
    ensures steps { steps.new.graph ≤ steps.old.graph + length graph.now }
    ensures few { ((k : ℕ) → length old.now ≤ k → k < length graph.now → is_named Limit events.now (id_at graph.now k) ≡ false) → steps.new.graph ≡ steps.old.graph }
    ensures records { steps.new.record_count ≡ steps.old.record_count }
{
    let count = graph.len() as usize;
    let limits = numbers_named(alloc, graph, EventKind::Limit, events)?;
    let mut marks = old.padded(alloc, count)?;
    mark_new(graph, events, old, limits.as_slice(), &mut marks, steps);
    Ok(marks)
}

// A new row changes what was marked only where a limit names it.
fn mark_new<L: Ledger>(
    graph: &Graph,
    events: &[Event],
    old: &Bits,
    limits: &[u32],
    marks: &mut Bits,
    steps: &mut Steps<L>,
)
    requires within { length old.now ≤ length graph.now }
    requires old { AreBefore events.now (take (length old.now) graph.now) old.now }
    requires limits { AreNumbers graph.now Limit events.now limits.now }
    requires size { length marks.old ≡ length graph.now }
    requires same { (n : ℕ) → slice_index_or marks.old n false ≡ slice_index_or old.now n false }
    ensures before { AreBefore events.now graph.now marks.new }
    ensures steps { steps.new.graph ≤ steps.old.graph + length graph.now }
    ensures few { ((k : ℕ) → length old.now ≤ k → k < length graph.now → is_named Limit events.now (id_at graph.now k) ≡ false) → steps.new.graph ≡ steps.old.graph }
    ensures records { steps.new.record_count ≡ steps.old.record_count }
{
    // Its contract tells that the graph is legal.
    let _ = graph.len();
    let end = end_of(limits);
    if end <= old.len() {
        return;
    }
    mark_back(graph, events, old, limits, end, marks, steps);
}

// One above the greatest number, or 0 where there is none.
fn end_of(numbers: &[u32]) -> usize
    requires { IsNonDecreasing numbers.now }
    ensures above { All (λ n. n < result) numbers.now }
    ensures last { 0 < result → has_number numbers.now (result - 1) ≡ true }
{
    let count = numbers.len();
    if count == 0 {
        return 0;
    }
    numbers[count - 1] as usize + 1
}

// From the row before `end` down, the parents of a row are marked where a limit names it and it is new, or
// where it is newly marked. No limit names a row from `end` on.
fn mark_back<L: Ledger>(
    graph: &Graph,
    events: &[Event],
    old: &Bits,
    limits: &[u32],
    end: usize,
    marks: &mut Bits,
    steps: &mut Steps<L>,
)
    requires within { length old.now ≤ length graph.now }
    requires old { AreBefore events.now (take (length old.now) graph.now) old.now }
    requires limits { AreNumbers graph.now Limit events.now limits.now }
    requires end { end ≤ length graph.now }
    requires above { All (λ n. n < end) limits.now }
    requires size { length marks.old ≡ length graph.now }
    requires same { (n : ℕ) → slice_index_or marks.old n false ≡ slice_index_or old.now n false }
    ensures before { AreBefore events.now graph.now marks.new }
    ensures steps { steps.new.graph ≤ steps.old.graph + length graph.now }
    ensures records { steps.new.record_count ≡ steps.old.record_count }
{
    // Its contract tells that the graph is legal, and that row numbers fit 32 bits.
    let _ = graph.len();
    let mut at = end;
    while at > 0 {
        at -= 1;
        let row = at as u32;
        if is_due(row, old, limits, marks) {
            marks.set_all(graph.parents_at(row, steps));
        }
    }
}

// Whether the parents of a row have still to be marked.
fn is_due(row: u32, old: &Bits, limits: &[u32], marks: &Bits) -> bool
    requires within { row < length marks.now }
    requires limits { IsNonDecreasing limits.now }
    ensures settled { row < length old.now → result ≡ (slice_index_or marks.now row false && not (slice_index_or old.now row false)) }
    ensures new { length old.now ≤ row → result ≡ (slice_index_or marks.now row false || has_number limits.now row) }
{
    let at = row as usize;
    if at < old.len() {
        marks.get(at) && !old.get(at)
    } else {
        marks.get(at) || is_among(limits, row)
    }
}
