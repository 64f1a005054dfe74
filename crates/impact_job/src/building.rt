ghost use Rattle.std.specs.Prelude.{◌≡◌, List, map, flat_map, IfOk};
ghost use Rattle.std.specs.Arc.{arc_value};
ghost use Rattle.std.specs.List.{AllZip};
ghost use Rattle.osv_record.specs.Advisories.{Advisory};
ghost use Rattle.history.specs.declared.past.Past.{Past};
ghost use Rattle.history.specs.Pieces.{GitRange, ranges_of};
ghost use Rattle.piece_work.specs.Sets.{IsSetOf};
ghost use Rattle.impact_job.specs.Tables.{IsFilledOf, IsSomeFilled, IsMadeFor, HasSet, IsTodoOf, AreSetsOf, StandsFor, git_counts, filled_upto};

use crate::split::parted;
use crate::tables::{Filled, Tables, Todo};
use impact_set::ImpactSet;
use osv_prim::{List, Memory};
use std::alloc::Global;
use std::sync::Arc;

/// The tables of a plan whose pieces are done. It takes one `Arc` more for each set, and 24 bytes for each advisory, of
/// which nothing is read. Only memory can fail.
pub fn tables_of(alloc: Global, filled: &Filled) -> Result<Tables, Memory>
    requires { IsSomeFilled filled.now }
    ensures stands { (b p : List Past) → IsFilledOf filled.now b p → IfOk result (λ t. StandsFor t p) }
    ensures upto { IfOk result (λ t. t.upto ≡ filled_upto filled.now) }
{
    let plan = &filled.plan;
    let (todo, made) = (plan.todo.as_slice(), filled.made.as_slice());
    let sets = by_advisory(alloc, plan.counts.as_slice(), todo, made)?;
    Ok(Tables {
        upto: plan.upto,
        records: Arc::try_clone(&plan.records)?,
        repos: Arc::try_clone(&plan.repos)?,
        sets,
    })
}

// The sets by advisory, each with as many as it has GIT ranges.
fn by_advisory(
    alloc: Global,
    counts: &[u32],
    todo: &[Todo],
    made: &[Option<Arc<ImpactSet>>],
) -> Result<Vec<List<Arc<ImpactSet>>>, Memory>
    requires { AllZip HasSet todo.now made.now }
    ensures { (b p : List Past) (rs : List Advisory) → counts.now ≡ git_counts rs → AllZip (IsTodoOf b p) (flat_map ranges_of rs) todo.now → AllZip (IsMadeFor p) (flat_map ranges_of rs) made.now
        → IfOk result (λ v. AllZip (AreSetsOf p) rs v.items) }
{
    let mut grouped = Vec::with_capacity(alloc, counts.len())?;
    let (mut rest, mut rest_made) = (todo, made);
    for ranges in counts {
        let count = *ranges as usize;
        let (own, later) = parted(rest, count);
        let (own_made, later_made) = parted(rest_made, count);
        grouped.push(sets_of(alloc, own, own_made)?)?;
        rest = later;
        rest_made = later_made;
    }
    Ok(grouped)
}

// The set of each GIT range.
fn sets_of(
    alloc: Global,
    todo: &[Todo],
    made: &[Option<Arc<ImpactSet>>],
) -> Result<List<Arc<ImpactSet>>, Memory>
    requires { AllZip HasSet todo.now made.now }
    ensures { (b p : List Past) (ranges : List GitRange) → AllZip (IsTodoOf b p) ranges todo.now → AllZip (IsMadeFor p) ranges made.now
        → IfOk result (λ l. AllZip (IsSetOf p) ranges (map (λ a. arc_value a) l)) }
{
    let mut sets = Vec::with_capacity(alloc, todo.len())?;
    for (one, made) in todo.iter().zip(made) {
        sets.push(Arc::try_clone(set_in(one, made))?)?;
    }
    Ok(List::from_vec(sets))
}

// That which was made, or which is carried on.
fn set_in<'a>(todo: &'a Todo, made: &'a Option<Arc<ImpactSet>>) -> &'a Arc<ImpactSet>
    requires { HasSet todo.now made.now }
    ensures { (b p : List Past) (x : GitRange) → IsTodoOf b p x todo.now → IsMadeFor p x made.now → IsSetOf p x (arc_value result.now) }
{
    match (made, todo) {
        (Some(set), _) => set,
        (None, Todo::Carried(set)) => set,
        (None, Todo::Piece(_)) => unreachable!(),
    }
}
