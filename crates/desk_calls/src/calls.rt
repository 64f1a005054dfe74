// One call of a desk each, by what it comes to for a session.

ghost use Rattle.std.specs.Prelude.{◌≡◌, ◌≤◌, length};
ghost use Rattle.std.specs.Arc.{arc_value};
ghost use Rattle.history.specs.Entries.{imports};
ghost use Rattle.book_model.specs.Jobs.{JobHolds, FinishedHolds};
ghost use Rattle.snapshot.specs.Jobs.{name, IsJob, outcome, IsDone};
ghost use Rattle.desk_calls.specs.Calls.{AllFound, Counted, HandedBack, HandedIn, Imported, NamedIs, NewestIs, PulledIs};

use book_desk::{Desk, ImportFault, Kept, Newest, Progress, Pulled, Strange};
use osv_prim::Memory;
use osv_record::Record;
use snapshot::{Finished, Job};
use std::alloc::Global;
use std::sync::Arc;

/// Imports an advisory: the place of its entry.
pub fn import_of<D: Desk>(desk: &mut D, advisory: Arc<Record>) -> Result<u64, ImportFault>
    ensures { Imported (D.caller desk.old) (arc_value advisory) result (D.caller desk.new) }
{
    desk.import(advisory)
}

/// How many imports there are.
pub fn count_of<D: Desk>(desk: &mut D) -> u64
    ensures { Counted (D.caller desk.old) result (D.caller desk.new) }
{
    desk.imports()
}

/// The newest snapshot.
pub fn newest_of<D: Desk>(alloc: Global, desk: &mut D) -> Result<Newest, Memory>
    ensures { NewestIs (D.caller desk.old) result (D.caller desk.new) }
{
    let mut found = Vec::new(alloc);
    desk.look(&[], &mut found)
}

/// A snapshot by its number, beside the newest one's.
#[derive(Drop)]
pub struct Named {
    pub newest: u64,
    pub kept: Kept,
}

/// What a snapshot's number finds.
pub fn kept_of<D: Desk>(alloc: Global, desk: &mut D, number: u64) -> Result<Named, Memory>
    ensures { NamedIs (D.caller desk.old) number result (D.caller desk.new) }
{
    let _known = desk.point();
    let Ok(mut found) = Vec::with_capacity(alloc, 1) else {
        return Err(Memory);
    };
    match desk.look(&[number], &mut found) {
        Ok(newest) => match found.pop() {
            Some(kept) => Ok(Named {
                newest: newest.number,
                kept,
            }),
            None => Err(Memory),
        },
        Err(_) => Err(Memory),
    }
}

/// Snapshots by their numbers, beside the newest one.
#[derive(Drop)]
pub struct Found {
    pub newest: Newest,
    /// What each number finds, in order.
    pub kept: Vec<Kept>,
}

/// What these numbers of snapshots find, all of one history.
pub fn find_all<D: Desk>(alloc: Global, desk: &mut D, numbers: &[u64]) -> Result<Found, Memory>
    ensures { AllFound (D.caller desk.old) numbers.now result (D.caller desk.new) }
{
    let _known = desk.point();
    let Ok(mut kept) = Vec::with_capacity(alloc, numbers.len()) else {
        return Err(Memory);
    };
    match desk.look(numbers, &mut kept) {
        Ok(newest) => Ok(Found { newest, kept }),
        Err(_) => Err(Memory),
    }
}

/// Asks for a snapshot of the first `goal` imports, or a job for it.
pub fn pull_of<D: Desk>(desk: &mut D, goal: u64) -> Result<Pulled, Memory>
    requires { goal ≤ length (imports (D.caller desk.old).front) }
    ensures { PulledIs (D.caller desk.old) goal result (D.caller desk.new) }
{
    desk.pull(goal)
}

/// Hands in what a job came to.
pub fn finish_of<D: Desk>(desk: &mut D, finished: Finished) -> Result<Progress, Strange>
    requires { FinishedHolds outcome IsDone finished (D.caller desk.old).front }
    ensures { HandedIn (outcome finished).job (outcome finished).cells (D.caller desk.old) (D.caller desk.new) }
{
    desk.finish(finished)
}

/// Hands a job back.
pub fn give_back_of<D: Desk>(desk: &mut D, job: Job) -> Result<(), Strange>
    requires { JobHolds name IsJob job (D.caller desk.old).front }
    ensures { HandedBack (name job) (D.caller desk.old) (D.caller desk.new) }
{
    desk.give_back(job)
}
