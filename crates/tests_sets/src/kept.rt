ghost use Rattle.impact_set.specs.Standing.{StandsFor};

use commit_graph::{Graph, GraphFault};
use git_range::affects;
use impact_set::{ImpactSet, laws};
use osv_prim::{CommitRow, Event, Ledger, List, Memory, Steps};
use std::alloc::Global;

/// A set beside the events and the graph for which it stands.
#[derive(Drop)]
pub struct Kept {
    pub events: List<Event>,
    pub graph: Graph,
    pub set: ImpactSet,
    ghost stands: { StandsFor events graph set },
}

/// The set of a range on the graph without commits.
pub fn begun<L: Ledger>(
    alloc: Global,
    events: List<Event>,
    steps: &mut Steps<L>,
) -> Result<Kept, Memory> {
    let graph = Graph::empty(alloc)?;
    let set = ImpactSet::fresh(alloc, events.as_slice(), &graph, steps)?;
    Ok(Kept { events, graph, set })
}

/// The set of the same range on the graph with rows joined to it.
pub fn grown<L: Ledger>(
    alloc: Global,
    kept: Kept,
    rows: &[CommitRow],
    steps: &mut Steps<L>,
) -> Result<Kept, GraphFault> {
    laws::a_set_stands_for_the_first_rows_of_a_grown_graph();
    let Kept { events, graph, set } = kept;
    let larger = graph.extend(alloc, rows, u32::MAX, steps)?;
    let set = set.extend(alloc, events.as_slice(), &larger, steps)?;
    Ok(Kept {
        events,
        graph: larger,
        set,
    })
}

/// Whether the set has a commit; false for a number that it doesn't cover.
pub fn has(set: &ImpactSet, number: u32) -> bool {
    number < set.covers() && set.has(number)
}

/// At how many commits the set that was extended, a fresh one and the plain function differ.
pub fn differences<L: Ledger>(
    alloc: Global,
    kept: &Kept,
    steps: &mut Steps<L>,
) -> Result<u32, Memory> {
    let events = kept.events.as_slice();
    let fresh = ImpactSet::fresh(alloc, events, &kept.graph, steps)?;
    let mut count = 0u32;
    for number in 0..kept.graph.len() {
        let plain = affects(alloc, &kept.graph, events, number, steps)?;
        if has(&kept.set, number) != plain || has(&fresh, number) != plain {
            count = count.saturating_add(1);
        }
    }
    Ok(count)
}

/// How many commits the set has.
pub fn members(set: &ImpactSet) -> u32 {
    let mut count = 0u32;
    for number in 0..set.covers() {
        if has(set, number) {
            count = count.saturating_add(1);
        }
    }
    count
}
