ghost use Rattle.std.specs.Prelude.{◌≡◌, ◌<◌, List, Some, length, slice_get, IfOk};
ghost use Rattle.std.specs.Arc.{arc_value};
ghost use Rattle.history.specs.declared.past.Past.{Past};
ghost use Rattle.history.specs.Pieces.{GitRange, git_ranges_in};
ghost use Rattle.piece_work.specs.Sets.{IsSetOf};
ghost use Rattle.impact_job.specs.Tables.{IsPlanOf, IsSomePlan, IsTodoOf};
ghost use Rattle.impact_job.specs.Walks.{CanBeDone};

use crate::tables::{Plan, Todo};
use impact_set::ImpactSet;
use osv_prim::{Ledger, Memory, Steps};
use piece_work::work;
use std::alloc::Global;
use std::sync::Arc;

/// Does a piece of a build: the set of the GIT range with its number. A set that is carried on costs one
/// `Arc`, and no step through a graph. Only memory can fail.
pub fn set_of<L: Ledger>(
    alloc: Global,
    plan: &Plan,
    number: u32,
    steps: &mut Steps<L>,
) -> Result<Arc<ImpactSet>, Memory>
    requires plan { IsSomePlan plan.now }
    requires number { number < length plan.now.todo.items }
    ensures { (b p : List Past) (x : GitRange) → IsPlanOf plan.now b p → slice_get (git_ranges_in p) number ≡ Some x → IfOk result (λ s. IsSetOf p x (arc_value s)) }
{
    set_for(alloc, &plan.todo[number as usize], steps)
}

fn set_for<L: Ledger>(
    alloc: Global,
    todo: &Todo,
    steps: &mut Steps<L>,
) -> Result<Arc<ImpactSet>, Memory>
    requires { CanBeDone todo.now }
    ensures { (b p : List Past) (x : GitRange) → IsTodoOf b p x todo.now → IfOk result (λ s. IsSetOf p x (arc_value s)) }
{
    match todo {
        Todo::Carried(set) => Ok(Arc::try_clone(set)?),
        Todo::Piece(piece) => work(alloc, piece, steps),
    }
}
