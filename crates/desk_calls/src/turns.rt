ghost use Rattle.std.specs.Prelude.{◌≡◌, ◌≤◌, length};
ghost use Rattle.history.specs.Entries.{imports};
ghost use Rattle.book_model.specs.Jobs.{JobHolds};
ghost use Rattle.snapshot.specs.Jobs.{name, IsJob};
ghost use Rattle.session_model.specs.Alone.{IsAlone};
ghost use Rattle.desk_calls.specs.Publishing.{PublishedAlone, PublishedBy, TurnIs, WorkIs};

use crate::calls::{count_of, finish_of, give_back_of, pull_of};
use book_desk::{Desk, Pulled};
use gate::Gate;
use osv_prim::{Ledger, Memory, Steps};
use session_model::Sign;
use snapshot::{Job, do_job};
use std::alloc::Global;

/// The most turns that a publication takes.
const MOST_TURNS: u64 = 268_435_456;

/// What a turn of a publication came to.
#[derive(Clone, Copy)]
pub(crate) enum Turned {
    Reached { snapshot: u64, upto: u64 },
    Out { out: u64 },
    Finished,
}

/// Publishes all that was imported, by turns of at most one job each: the snapshot that has it all, or that
/// a build of it is still under way. Only memory can fail.
pub fn publish<D: Desk, G: Gate, L: Ledger>(
    alloc: Global,
    desk: &mut D,
    gate: &G,
    steps: &mut Steps<L>,
) -> Result<Sign, Memory>
    ensures published { PublishedBy (D.caller desk.old) (length (imports (D.caller desk.old).front)) result (D.caller desk.new) }
    ensures alone { IsAlone (D.caller desk.old) → PublishedAlone (D.caller desk.old) result (D.caller desk.new) }
{
    let goal = count_of(desk);
    publish_to(alloc, desk, gate, goal, steps)
}

// Turns of a publication, until it is reached, or jobs are out, or there were too many.
fn publish_to<D: Desk, G: Gate, L: Ledger>(
    alloc: Global,
    desk: &mut D,
    gate: &G,
    goal: u64,
    steps: &mut Steps<L>,
) -> Result<Sign, Memory>
    requires { goal ≤ length (imports (D.caller desk.old).front) }
    ensures published { PublishedBy (D.caller desk.old) goal result (D.caller desk.new) }
    ensures alone { IsAlone (D.caller desk.old) → goal ≡ length (imports (D.caller desk.old).front) → PublishedAlone (D.caller desk.old) result (D.caller desk.new) }
{
    let _known = desk.point();
    let mut took = 0;
    while took < MOST_TURNS {
        match one_turn(alloc, desk, gate, goal, steps) {
            Ok(Turned::Reached { snapshot, upto }) => {
                return Ok(Sign::Published { snapshot, upto });
            }
            Ok(Turned::Out { out }) => return Ok(Sign::Building { out, took }),
            Ok(Turned::Finished) => took += 1,
            Err(_) => return Err(Memory),
        }
    }
    Ok(Sign::Building { out: 0, took })
}

// One turn: a job is asked for, done and handed in.
fn one_turn<D: Desk, G: Gate, L: Ledger>(
    alloc: Global,
    desk: &mut D,
    gate: &G,
    goal: u64,
    steps: &mut Steps<L>,
) -> Result<Turned, Memory>
    requires { goal ≤ length (imports (D.caller desk.old).front) }
    ensures { TurnIs (D.caller desk.old) goal result (D.caller desk.new) }
{
    match pull_of(desk, goal) {
        Ok(Pulled::Reached { snapshot, upto }) => Ok(Turned::Reached { snapshot, upto }),
        Ok(Pulled::Out { out }) => Ok(Turned::Out { out }),
        Ok(Pulled::Job(job)) => match work(alloc, desk, gate, job, steps) {
            Ok(()) => Ok(Turned::Finished),
            Err(_) => Err(Memory),
        },
        Err(_) => Err(Memory),
    }
}

// Does a job and hands it in, or hands it back where there is no memory.
fn work<D: Desk, G: Gate, L: Ledger>(
    alloc: Global,
    desk: &mut D,
    gate: &G,
    job: Job,
    steps: &mut Steps<L>,
) -> Result<(), Memory>
    requires { JobHolds name IsJob job (D.caller desk.old).front }
    ensures { WorkIs (name job) (D.caller desk.old) result (D.caller desk.new) }
{
    match do_job(alloc, job, gate, steps) {
        Ok(finished) => {
            let _ = finish_of(desk, finished);
            Ok(())
        }
        Err(job) => {
            let _ = give_back_of(desk, job);
            Err(Memory)
        }
    }
}
