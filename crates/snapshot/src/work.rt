ghost use Rattle.std.specs.Prelude.{◌≡◌, ◌<◌, List, Some, IfOk, IfErr, length, map, slice_get};
ghost use Rattle.std.specs.Arc.{arc_value};
ghost use Rattle.history.specs.declared.past.Past.{Past};
ghost use Rattle.history.specs.Entries.{History};
ghost use Rattle.history.specs.Pieces.{GitRange, git_ranges_in};
ghost use Rattle.piece_work.specs.Sets.{IsSetOf};
ghost use Rattle.book_model.specs.Jobs.{JobHolds, FinishedHolds};
ghost use Rattle.impact_job.specs.Tables.{IsPrefixOf, IsPlanOf, IsSomePlan, IsFilledOf, plan_upto, filled_upto};
ghost use Rattle.snapshot.specs.Snapshots.{StandsFor, snapshot_upto};
ghost use Rattle.snapshot.specs.Jobs.{name, outcome, planned_place, IsJob, IsSomeJob, IsDone};

use crate::assembly::assemble;
use crate::job::{Finished, Job, Place};
use crate::snapshot::Snapshot;
use gate::Gate;
use impact_job::{Filled, Plan, Prefix, Todo, plan, set_of};
use impact_set::ImpactSet;
use osv_prim::{Ledger, Memory, Steps};
use std::alloc::Global;
use std::sync::Arc;

/// Does a job, a piece between the gate's two calls. Only memory can fail, and then the job comes back.
pub fn do_job<G: Gate, L: Ledger>(
    alloc: Global,
    job: Job,
    gate: &G,
    steps: &mut Steps<L>,
) -> Result<Finished, Job>
    requires { IsSomeJob job }
    ensures done { (b p : List Past) → IsJob job b p → IfOk result (λ f. IsDone f b p) }
    ensures holds { (h : History) → JobHolds name IsJob job h → IfOk result (λ f. FinishedHolds outcome IsDone f h) }
    ensures same { IfOk result (λ f. (outcome f).job ≡ name job) }
    ensures err { IfErr result (λ j. j ≡ job) }
{
    match job {
        Job::Plan { build, prefix } => match planned(alloc, &prefix) {
            Ok((plan, places)) => Ok(Finished::Plan {
                build,
                plan,
                places,
            }),
            Err(_) => Err(Job::Plan { build, prefix }),
        },
        Job::Piece {
            build,
            plan,
            number,
        } => match gated(alloc, &plan, (build, number), gate, steps) {
            Ok(set) => Ok(Finished::Piece {
                build,
                upto: plan.upto(),
                number,
                set,
            }),
            Err(_) => Err(Job::Piece {
                build,
                plan,
                number,
            }),
        },
        Job::Assemble {
            build,
            base,
            filled,
        } => match assembled(alloc, &base, &filled) {
            Ok(snapshot) => Ok(Finished::Assemble { build, snapshot }),
            Err(_) => Err(Job::Assemble {
                build,
                base,
                filled,
            }),
        },
    }
}

// The plan, and where its pieces are.
fn planned(alloc: Global, prefix: &Prefix) -> Result<(Arc<Plan>, Vec<Place>), Memory>
    ensures plan { (b p : List Past) → IsPrefixOf prefix.now b p → IfOk result (λ x. IsPlanOf (arc_value x.0) b p) }
    ensures upto { IfOk result (λ x. plan_upto (arc_value x.0) ≡ prefix.now.upto) }
    ensures places { IfOk result (λ x. x.1.items ≡ map planned_place (arc_value x.0).todo.items) }
{
    let plan = plan(alloc, prefix)?;
    let places = places_of(alloc, plan.todo.as_slice())?;
    Ok((Arc::new(alloc, plan)?, places))
}

fn places_of(alloc: Global, todo: &[Todo]) -> Result<Vec<Place>, Memory>
    ensures { IfOk result (λ v. v.items ≡ map planned_place todo.now) }
{
    let mut places = Vec::with_capacity(alloc, todo.len())?;
    for one in todo {
        places.push(planned_place(one))?;
    }
    Ok(places)
}

fn planned_place(todo: &Todo) -> Place
    ensures { result ≡ planned_place todo.now }
{
    match todo {
        Todo::Carried(_) => Place::Carried,
        Todo::Piece(_) => Place::Free,
    }
}

// The set of a piece, by its build and number.
fn gated<G: Gate, L: Ledger>(
    alloc: Global,
    plan: &Plan,
    piece: (u64, u32),
    gate: &G,
    steps: &mut Steps<L>,
) -> Result<Arc<ImpactSet>, Memory>
    requires plan { IsSomePlan plan.now }
    requires number { piece.1 < length plan.now.todo.items }
    ensures { (b p : List Past) (x : GitRange) → IsPlanOf plan.now b p → slice_get (git_ranges_in p) piece.1 ≡ Some x → IfOk result (λ s. IsSetOf p x (arc_value s)) }
{
    let (build, number) = piece;
    gate.before(build, number);
    let set = set_of(alloc, plan, number, steps)?;
    gate.after(build, number);
    Ok(set)
}

fn assembled(alloc: Global, base: &Snapshot, filled: &Filled) -> Result<Arc<Snapshot>, Memory>
    requires { (b : List Past) × ((p : List Past) × (StandsFor base.now b × IsFilledOf filled.now b p)) }
    ensures stands { (b p : List Past) → StandsFor base.now b → IsFilledOf filled.now b p → IfOk result (λ s. StandsFor (arc_value s) p) }
    ensures upto { IfOk result (λ s. snapshot_upto (arc_value s) ≡ filled_upto filled.now) }
{
    Ok(Arc::new(alloc, assemble(alloc, base, filled)?)?)
}
