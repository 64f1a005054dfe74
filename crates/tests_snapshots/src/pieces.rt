ghost use Rattle.std.specs.Prelude.{◌≡◌, ◌<◌, List, Some, length, map, slice_get, IfOk};
ghost use Rattle.std.specs.Arc.{arc_value};
ghost use Rattle.history.specs.declared.past.Past.{Past};
ghost use Rattle.history.specs.Pieces.{GitRange, git_ranges_in};
ghost use Rattle.piece_work.specs.Sets.{IsSetOf};
ghost use Rattle.impact_job.specs.declared.tables.Todo as to_do;
ghost use Rattle.impact_job.specs.Tables.{IsPlanOf, IsSomePlan, IsFilledOf, IsMadeFor, HasSet};
ghost use Rattle.snapshot.specs.Jobs.{planned_place};

use gate::Gate;
use impact_job::{Filled, Plan};
use impact_set::ImpactSet;
use osv_prim::{Ledger, Memory, Steps};
use snapshot::{Finished, Job, Place, do_job};
use std::alloc::Global;
use std::sync::Arc;
use std::sync::atomic::{AtomicU64, Ordering};

/// How often a gate was called before a piece, and after one.
#[derive(Drop)]
pub struct CallCount {
    before: AtomicU64,
    after: AtomicU64,
}

impl CallCount {
    pub fn new() -> CallCount {
        CallCount {
            before: AtomicU64::new(0),
            after: AtomicU64::new(0),
        }
    }

    pub fn counts(&self) -> (u64, u64) {
        (
            self.before.load(Ordering::SeqCst),
            self.after.load(Ordering::SeqCst),
        )
    }
}

impl Gate for CallCount {
    fn before(&self, _build: u64, _number: u32) {
        self.before.fetch_add(1, Ordering::SeqCst);
    }

    fn after(&self, _build: u64, _number: u32) {
        self.after.fetch_add(1, Ordering::SeqCst);
    }

    fn idle(&self) {}
}

/// Does the pieces of a plan, one after another.
pub fn filled_of<L: Ledger>(
    alloc: Global,
    plan: Arc<Plan>,
    places: &[Place],
    gate: &CallCount,
    steps: &mut Steps<L>,
) -> Result<Filled, Memory>
    requires some { IsSomePlan (arc_value plan) }
    requires places { places.now ≡ map planned_place (arc_value plan).todo.items }
    ensures { (b p : List Past) → IsPlanOf (arc_value plan) b p → IfOk result (λ f. IsFilledOf f b p) }
{
    let mut made = Vec::with_capacity(alloc, places.len())?;
    for place in places {
        let number = number_of(made.len())?;
        made.push(made_at(alloc, &plan, number, place, gate, steps)?)?;
    }
    Ok(Filled { plan, made })
}

fn number_of(count: usize) -> Result<u32, Memory>
    ensures { IfOk result (λ n. n ≡ count) }
{
    if count > u32::MAX as usize {
        return Err(Memory);
    }
    Ok(count as u32)
}

// The set of a piece, unless the plan carries one on.
fn made_at<L: Ledger>(
    alloc: Global,
    plan: &Arc<Plan>,
    number: u32,
    place: &Place,
    gate: &CallCount,
    steps: &mut Steps<L>,
) -> Result<Option<Arc<ImpactSet>>, Memory>
    requires some { IsSomePlan (arc_value plan.now) }
    requires number { number < length (arc_value plan.now).todo.items }
    ensures made { (b p : List Past) (x : GitRange) → IsPlanOf (arc_value plan.now) b p → slice_get (git_ranges_in p) number ≡ Some x → IfOk result (λ m. IsMadeFor p x m) }
    ensures whole { (t : to_do.Todo) → place.now ≡ planned_place t → IfOk result (λ m. HasSet t m) }
{
    match place {
        Place::Carried => Ok(None),
        _ => Ok(Some(set_at(alloc, plan, number, gate, steps)?)),
    }
}

fn set_at<L: Ledger>(
    alloc: Global,
    plan: &Arc<Plan>,
    number: u32,
    gate: &CallCount,
    steps: &mut Steps<L>,
) -> Result<Arc<ImpactSet>, Memory>
    requires some { IsSomePlan (arc_value plan.now) }
    requires number { number < length (arc_value plan.now).todo.items }
    ensures { (b p : List Past) (x : GitRange) → IsPlanOf (arc_value plan.now) b p → slice_get (git_ranges_in p) number ≡ Some x → IfOk result (λ s. IsSetOf p x (arc_value s)) }
{
    let job = Job::Piece {
        build: 1,
        plan: Arc::try_clone(plan)?,
        number,
    };
    match do_job(alloc, job, gate, steps) {
        Ok(Finished::Piece { set, .. }) => Ok(set),
        _ => Err(Memory),
    }
}
