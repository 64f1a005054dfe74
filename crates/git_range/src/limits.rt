ghost use Rattle.std.specs.Prelude.{◌≡◌, ◌+◌, ◌<◌, ◌≤◌, ◌↔◌, length, replicate, false, IsTrue, IfOk};
ghost use Rattle.osv_prim.specs.Graphs.{id_at, IsBeforeLimit, IsWithinLimits};

use crate::events::{has_limit, names_all, note_named};
use crate::marks::mark_all;
use commit_graph::Graph;
use osv_prim::{Event, EventKind, Ledger, Memory, Steps};
use std::alloc::Global;

/// Whether the limits let the commit with this number through.
pub(crate) fn is_within_limits<L: Ledger>(
    alloc: Global,
    graph: &Graph,
    events: &[Event],
    number: u32,
    steps: &mut Steps<L>,
) -> Result<bool, Memory>
    requires { number < length graph.now }
    ensures within { IfOk result (λ yes. IsTrue yes ↔ IsWithinLimits graph.now events.now (id_at graph.now number)) }
    ensures steps { steps.new.graph ≤ steps.old.graph + length graph.now }
    ensures records { steps.new.record_count ≡ steps.old.record_count }
{
    if !has_limit(events) || names_all(EventKind::Limit, events) {
        return Ok(true);
    }
    is_before_limit(alloc, graph, events, number, steps)
}

// Whether the commit is a proper ancestor of one that a limit names.
fn is_before_limit<L: Ledger>(
    alloc: Global,
    graph: &Graph,
    events: &[Event],
    number: u32,
    steps: &mut Steps<L>,
) -> Result<bool, Memory>
    requires { number < length graph.now }
    ensures before { IfOk result (λ yes. IsTrue yes ↔ IsBeforeLimit graph.now events.now (id_at graph.now number)) }
    ensures steps { steps.new.graph ≤ steps.old.graph + length graph.now }
    ensures records { steps.new.record_count ≡ steps.old.record_count }
{
    let count = graph.len() as usize;
    let mut marks = vec![in alloc; false; count]?;
    let before = leads_to_limit(graph, events, number, marks.as_mut_slice(), steps);
    Ok(before)
}

// From the last row down, the limits' commits and then their ancestors are marked. What a limit says of
// the commit itself doesn't count.
fn leads_to_limit<L: Ledger>(
    graph: &Graph,
    events: &[Event],
    number: u32,
    marks: &mut [bool],
    steps: &mut Steps<L>,
) -> bool
    requires there { number < length graph.now }
    requires marks { marks.old ≡ replicate (length graph.now) false }
    ensures before { IsTrue result ↔ IsBeforeLimit graph.now events.now (id_at graph.now number) }
    ensures steps { steps.new.graph ≤ steps.old.graph + length graph.now }
    ensures records { steps.new.record_count ≡ steps.old.record_count }
{
    let number = number as usize;
    let mut at = graph.len() as usize;
    note_named(graph, EventKind::Limit, events, marks);
    marks[number] = false;
    while number + 1 < at && !marks[number] {
        at -= 1;
        if marks[at] {
            mark_all(graph.parents_at(at as u32, steps), marks);
        }
    }
    marks[number]
}
