ghost use Rattle.std.specs.Prelude.{◌≡◌, IfOk};
ghost use Rattle.std.specs.Arc.{arc_value};
ghost use Rattle.impact_set.specs.Standing.{StandsFor};
ghost use Rattle.piece_work.specs.Works.{events_at};

use commit_graph::{Graph, GraphFault};
use history::PieceKind;
use impact_set::{ImpactSet, laws};
use osv_prim::{CommitRow, Ledger, Memory, Steps};
use osv_record::Record;
use piece_work::{Piece, work};
use std::alloc::Global;
use std::sync::Arc;

/// The set of an advisory's first range, beside the graph for which it stands.
#[derive(Drop)]
pub struct Kept {
    pub advisory: Arc<Record>,
    pub graph: Arc<Graph>,
    pub set: Arc<ImpactSet>,
    ghost stands: { StandsFor (events_at (arc_value advisory) 0 0) (arc_value graph) (arc_value set) },
}

fn shared(alloc: Global, graph: Graph) -> Result<Arc<Graph>, Memory>
    ensures { IfOk result (λ a. arc_value a ≡ graph) }
{
    Ok(Arc::new(alloc, graph)?)
}

/// The set made anew.
pub fn made<L: Ledger>(
    alloc: Global,
    advisory: Arc<Record>,
    graph: Arc<Graph>,
    steps: &mut Steps<L>,
) -> Result<Kept, Memory> {
    let piece = Piece {
        number: 0,
        kind: PieceKind::Fresh,
        advisory,
        entry: 0,
        range: 0,
        graph,
        old: None,
    };
    let set = work(alloc, &piece, steps)?;
    let Piece {
        advisory,
        graph,
        ..
    } = piece;
    Ok(Kept {
        advisory,
        graph,
        set,
    })
}

/// The set extended, where rows are joined to the graph.
pub fn grown<L: Ledger>(
    alloc: Global,
    kept: Kept,
    rows: &[CommitRow],
    steps: &mut Steps<L>,
) -> Result<Kept, GraphFault> {
    laws::a_set_stands_for_the_first_rows_of_a_grown_graph();
    let Kept {
        advisory,
        graph,
        set,
    } = kept;
    let larger = graph.extend(alloc, rows, u32::MAX, steps)?;
    let piece = Piece {
        number: 0,
        kind: PieceKind::Extend,
        advisory,
        entry: 0,
        range: 0,
        graph: shared(alloc, larger)?,
        old: Some(set),
    };
    let set = work(alloc, &piece, steps)?;
    let Piece {
        advisory,
        graph,
        ..
    } = piece;
    Ok(Kept {
        advisory,
        graph,
        set,
    })
}

/// The same set, carried on.
pub fn carried<L: Ledger>(alloc: Global, kept: Kept, steps: &mut Steps<L>) -> Result<Kept, Memory> {
    let Kept {
        advisory,
        graph,
        set,
    } = kept;
    let piece = Piece {
        number: 0,
        kind: PieceKind::Carry,
        advisory,
        entry: 0,
        range: 0,
        graph,
        old: Some(set),
    };
    let set = work(alloc, &piece, steps)?;
    let Piece {
        advisory,
        graph,
        ..
    } = piece;
    Ok(Kept {
        advisory,
        graph,
        set,
    })
}
