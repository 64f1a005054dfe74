ghost use Rattle.std.specs.Prelude.{◌≡◌, ◌+◌, ◌*◌, ◌<◌, ◌≤◌, ℕ, length, take, false, IfOk};
ghost use Rattle.std.specs.Arc.{arc_value};
ghost use Rattle.osv_prim.specs.Graphs.{id_at, is_named};
ghost use Rattle.osv_prim.specs.declared.event.EventKind.TheVariants.{Limit};
ghost use Rattle.history.specs.declared.piece_kind.PieceKind.TheVariants.{Extend, Carry};
ghost use Rattle.impact_set.specs.Standing.{StandsFor};
ghost use Rattle.piece_work.specs.Works.{events_at, events_of, IsReady, old_count};

use commit_graph::Graph;
use history::PieceKind;
use impact_set::ImpactSet;
use osv_prim::{Event, Ledger, Memory, Steps};
use osv_record::Record;
use std::alloc::Global;
use std::sync::Arc;

/// What is to be done for a GIT range of an advisory: its set of affected commits is to be there, for the
/// graph that its repository has.
#[derive(Drop)]
pub struct Piece {
    /// Its number among the pieces of its build, from 0.
    pub number: u32,
    pub kind: PieceKind,
    pub advisory: Arc<Record>,
    /// The index of the entry in the advisory.
    pub entry: u32,
    /// The index of the range in the entry.
    pub range: u32,
    /// The graph of the range's repository.
    pub graph: Arc<Graph>,
    /// The set of the range in the snapshot before, where there is one.
    pub old: Option<Arc<ImpactSet>>,
}

/// The events of the range with these indexes, of its entry in the advisory and of itself in the entry;
/// none where the advisory has no such range.
pub fn events_at(advisory: &Record, entry: u32, range: u32) -> &[Event]
    ensures { result.now ≡ events_at advisory.now entry range }
{
    match advisory.affected.as_slice().get(entry as usize) {
        None => &[],
        Some(entry) => match entry.ranges.as_slice().get(range as usize) {
            None => &[],
            Some(range) => range.events.as_slice(),
        },
    }
}

/// The set of a piece's range on the piece's graph: that which is there, where it is to be carried on,
/// the same extended, or one made anew. Carrying it on takes no step; extending it takes at most one graph
/// step for each new row where no limit names a new row. Only memory can fail.
pub fn work<L: Ledger>(
    alloc: Global,
    piece: &Piece,
    steps: &mut Steps<L>,
) -> Result<Arc<ImpactSet>, Memory>
    requires { IsReady piece.now }
    ensures stands { IfOk result (λ s. StandsFor (events_of piece.now) (arc_value piece.now.graph) (arc_value s)) }
    ensures carry { piece.now.kind ≡ Carry → steps.new.graph ≡ steps.old.graph }
    ensures few { piece.now.kind ≡ Extend
        → ((k : ℕ) → old_count piece.now ≤ k → k < length (arc_value piece.now.graph) → is_named Limit (events_of piece.now) (id_at (arc_value piece.now.graph) k) ≡ false)
        → steps.new.graph + old_count piece.now ≤ steps.old.graph + length (arc_value piece.now.graph) }
    ensures steps { steps.new.graph ≤ steps.old.graph + 2 * length (arc_value piece.now.graph) }
    ensures records { steps.new.record_count ≡ steps.old.record_count }
{
    let events = events_at(&piece.advisory, piece.entry, piece.range);
    match (piece.kind, &piece.old) {
        (PieceKind::Carry, Some(old)) => Ok(Arc::try_clone(old)?),
        (PieceKind::Extend, Some(old)) => extended(alloc, old, events, &piece.graph, steps),
        _ => fresh(alloc, events, &piece.graph, steps),
    }
}

fn fresh<L: Ledger>(
    alloc: Global,
    events: &[Event],
    graph: &Graph,
    steps: &mut Steps<L>,
) -> Result<Arc<ImpactSet>, Memory>
    ensures stands { IfOk result (λ s. StandsFor events.now graph.now (arc_value s)) }
    ensures steps { steps.new.graph ≤ steps.old.graph + 2 * length graph.now }
    ensures records { steps.new.record_count ≡ steps.old.record_count }
{
    let set = ImpactSet::fresh(alloc, events, graph, steps)?;
    Ok(Arc::new(alloc, set)?)
}

fn extended<L: Ledger>(
    alloc: Global,
    old: &ImpactSet,
    events: &[Event],
    graph: &Graph,
    steps: &mut Steps<L>,
) -> Result<Arc<ImpactSet>, Memory>
    requires { StandsFor events.now (take (length old.now.reached) graph.now) old.now }
    ensures stands { IfOk result (λ s. StandsFor events.now graph.now (arc_value s)) }
    ensures few { ((k : ℕ) → length old.now.reached ≤ k → k < length graph.now → is_named Limit events.now (id_at graph.now k) ≡ false)
        → steps.new.graph + length old.now.reached ≤ steps.old.graph + length graph.now }
    ensures steps { steps.new.graph ≤ steps.old.graph + 2 * length graph.now }
    ensures records { steps.new.record_count ≡ steps.old.record_count }
{
    let set = old.extend(alloc, events, graph, steps)?;
    Ok(Arc::new(alloc, set)?)
}
