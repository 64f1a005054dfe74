// One job.
ghost use Rattle.std.specs.Prelude.{OnErr, OnOk};
ghost use Rattle.book_model.specs.Desk.{CountsStay, CountsTurn};
ghost use Rattle.book_model.specs.Jobs.{JobHolds, FinishedHolds};
ghost use Rattle.snapshot.specs.Jobs.{name, outcome, IsJob, IsDone};
ghost use Rattle.desk_calls.specs.Calls.{HandedBack, HandedIn};
ghost use Rattle.desk_calls.specs.Publishing.{WorkIs};
ghost use Rattle.impact_worker.specs.Working.{Comes, TakenIs};

use book_desk::{Desk, Taken};
use gate::Gate;
use osv_prim::{Ledger, Memory, Steps};
use snapshot::{Finished, Job, do_job};
use std::alloc::Global;

/// What came of asking for a job.
#[derive(Clone, Copy, Debug, PartialEq, Eq)]
pub enum Came {
    /// It was done and handed in.
    Did,
    /// There was none, and so many were out.
    Nothing { out: u64 },
    /// There was no memory for it. A job that was got was given back.
    Memory,
}

/// Asks for a job and does it.
pub fn work_once<D: Desk, G: Gate, L: Ledger>(
    alloc: Global,
    desk: &mut D,
    gate: &G,
    steps: &mut Steps<L>,
) -> Came
    ensures { Comes result (D.caller desk.old) (D.caller desk.new) }
{
    match take_of(desk) {
        Ok(Taken::Job(job)) => match work(alloc, desk, gate, job, steps) {
            Ok(()) => Came::Did,
            Err(_) => Came::Memory,
        },
        Ok(Taken::Nothing { out }) => Came::Nothing { out },
        Err(_) => Came::Memory,
    }
}

// Does a job that was just got and hands it in, or gives it back where there is no memory.
fn work<D: Desk, G: Gate, L: Ledger>(
    alloc: Global,
    desk: &mut D,
    gate: &G,
    job: Job,
    steps: &mut Steps<L>,
) -> Result<(), Memory>
    requires { JobHolds name IsJob job (D.caller desk.old).front }
    ensures work { WorkIs (name job) (D.caller desk.old) result (D.caller desk.new) }
    ensures turn { OnOk result (CountsTurn (D.caller desk.old) (D.caller desk.new)) }
    ensures stay { OnErr result (CountsStay (D.caller desk.old) (D.caller desk.new)) }
{
    match do_job(alloc, job, gate, steps) {
        Ok(finished) => {
            finish_of(desk, finished);
            Ok(())
        }
        Err(job) => {
            give_back_of(desk, job);
            Err(Memory)
        }
    }
}

fn take_of<D: Desk>(desk: &mut D) -> Result<Taken, Memory>
    ensures { TakenIs (D.caller desk.old) result (D.caller desk.new) }
{
    desk.take()
}

fn finish_of<D: Desk>(desk: &mut D, finished: Finished)
    requires { FinishedHolds outcome IsDone finished (D.caller desk.old).front }
    ensures handed { HandedIn (outcome finished).job (outcome finished).cells (D.caller desk.old) (D.caller desk.new) }
    ensures counts { CountsTurn (D.caller desk.old) (D.caller desk.new) }
{
    let _ = desk.finish(finished);
}

fn give_back_of<D: Desk>(desk: &mut D, job: Job)
    requires { JobHolds name IsJob job (D.caller desk.old).front }
    ensures handed { HandedBack (name job) (D.caller desk.old) (D.caller desk.new) }
    ensures counts { CountsStay (D.caller desk.old) (D.caller desk.new) }
{
    let _ = desk.give_back(job);
}
