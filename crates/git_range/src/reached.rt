ghost use Rattle.std.specs.Prelude.{◌≡◌, ◌==◌, ◌+◌, ◌<◌, ◌≤◌, ◌↔◌, ◌&&◌, ◌||◌, length, replicate, false, IsTrue, IfOk};
ghost use Rattle.osv_prim.specs.Graphs.{id_at, is_named, IsLegal, IsReached};
ghost use Rattle.osv_prim.specs.declared.event.EventKind.TheVariants.{Introduced};
ghost use Rattle.git_range.specs.Rows.{AreRows, is_closed};

use crate::events::{closed_rows, named_rows, names_all};
use crate::marks::mark_all;
use commit_graph::Graph;
use osv_prim::{Event, EventKind, Ledger, Memory, Steps};
use std::alloc::Global;

/// Whether a walk leads to the commit with this number from where the range begins, through no fixed
/// commit, and through a last affected one at most at its end.
pub(crate) fn is_reached<L: Ledger>(
    alloc: Global,
    graph: &Graph,
    events: &[Event],
    number: u32,
    steps: &mut Steps<L>,
) -> Result<bool, Memory>
    requires { number < length graph.now }
    ensures reached { IfOk result (λ yes. IsTrue yes ↔ IsReached graph.now events.now (id_at graph.now number)) }
    ensures steps { steps.new.graph ≤ steps.old.graph + length graph.now }
    ensures records { steps.new.record_count ≡ steps.old.record_count }
{
    // Its contract tells that the graph is legal.
    let _ = graph.len();
    let count = number as usize + 1;
    let closed = closed_rows(alloc, graph, events, number)?;
    let starts = named_rows(alloc, graph, EventKind::Introduced, events, count)?;
    let mut marks = vec![in alloc; false; count]?;
    let reached = finds_start(
        graph,
        events,
        number,
        closed.as_slice(),
        starts.as_slice(),
        marks.as_mut_slice(),
        steps,
    );
    Ok(reached)
}

// From the commit down, the parents of marked rows that aren't closed are marked, until one of these rows
// is where the range begins.
fn finds_start<L: Ledger>(
    graph: &Graph,
    events: &[Event],
    number: u32,
    closed: &[bool],
    starts: &[bool],
    marks: &mut [bool],
    steps: &mut Steps<L>,
) -> bool
    requires legal { IsLegal graph.now }
    requires there { number < length graph.now }
    requires closed { AreRows (number + 1) closed.now (is_closed graph.now events.now number) }
    requires starts { AreRows (number + 1) starts.now (λ n. is_named Introduced events.now (id_at graph.now n)) }
    requires marks { marks.old ≡ replicate (number + 1) false }
    ensures reached { IsTrue result ↔ IsReached graph.now events.now (id_at graph.now number) }
    ensures steps { steps.new.graph ≤ steps.old.graph + length graph.now }
    ensures records { steps.new.record_count ≡ steps.old.record_count }
{
    let from_roots = names_all(EventKind::Introduced, events);
    let number = number as usize;
    if closed[number] {
        return false;
    }
    marks[number] = true;
    let mut at = number + 1;
    while at > 0 {
        at -= 1;
        if marks[at] && !closed[at] {
            let parents = graph.parents_at(at as u32, steps);
            if is_start(starts[at], from_roots, parents) {
                return true;
            }
            mark_all(parents, marks);
        }
    }
    false
}

fn is_start(named: bool, from_roots: bool, parents: &[u32]) -> bool
    ensures { result ≡ (named || (from_roots && (length parents.now == 0))) }
{
    named || from_roots && parents.is_empty()
}
