ghost use Rattle.std.specs.Prelude.{◌≡◌, ◌+◌, ◌*◌, ◌<◌, ◌≤◌, ◌↔◌, length, IsTrue, IfOk};
ghost use Rattle.git_range.specs.Affected.{is_affected};
ghost use Rattle.osv_prim.specs.Graphs.{id_at, IsAffected};

use crate::events::all_read;
use crate::limits::is_within_limits;
use crate::reached::is_reached;
use commit_graph::Graph;
use osv_prim::{Event, Ledger, Memory, Steps};
use std::alloc::Global;

/// Whether a GIT range with these events affects the commit with this number, from 0, of its repository's
/// graph (OSV schema 1.6, "affected[].ranges[].events" and "Evaluation"). It takes at most two graph steps
/// and three bytes of memory for each row of the graph. Only want of memory is refused.
pub fn affects<L: Ledger>(
    alloc: Global,
    graph: &Graph,
    events: &[Event],
    number: u32,
    steps: &mut Steps<L>,
) -> Result<bool, Memory>
    requires { number < length graph.now }
    ensures affected { IfOk result (λ yes. IsTrue yes ↔ IsAffected graph.now events.now (id_at graph.now number)) }

    // The same as a function of the rows.
    ensures value { IfOk result (λ yes. yes ≡ is_affected graph.now events.now (id_at graph.now number)) }
    ensures steps { steps.new.graph ≤ steps.old.graph + 2 * length graph.now }
    ensures records { steps.new.record_count ≡ steps.old.record_count }
{
    // Its contract tells that the graph is legal.
    let _ = graph.len();
    if !all_read(events) {
        return Ok(false);
    }
    let within = is_within_limits(alloc, graph, events, number, steps)?;
    if !within {
        return Ok(false);
    }
    is_reached(alloc, graph, events, number, steps)
}
