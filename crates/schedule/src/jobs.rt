ghost use Rattle.std.specs.Prelude.{◌≡◌, ◌<◌, IfOk, OnErr, None, is_some, slice_index_or, slice_set, vec_len};
ghost use Rattle.book_model.specs.Jobs.{FinishedHolds};
ghost use Rattle.book_model.specs.Steps.{Finishes};
ghost use Rattle.snapshot.specs.Jobs.{outcome, IsDone};
ghost use Rattle.schedule.specs.Machine.{DoesPull, DoesTake, DoesWork, DoesBack};
ghost use Rattle.schedule.specs.Holding.{machine, EndsOne, IsHolding};

use crate::step::{Answer, PlayFault};
use book::Book;
use book_desk::{Progress, Pulled, Strange, Taken};
use gate::OpenGate;
use osv_prim::{Ledger, Memory, Steps};
use snapshot::{Finished, Job, do_job};
use std::alloc::Global;

// The caller has a job.
fn has_job(held: &[Option<Job>], by: u64) -> bool
    ensures { result ≡ is_some (slice_index_or held.now by None) }
{
    match held.get(by as usize) {
        Some(Some(_)) => true,
        _ => false,
    }
}

/// Asks for a snapshot of all imports.
pub(crate) fn pull(book: &mut Book, held: &mut Vec<Option<Job>>, by: u64) -> Result<Answer, Memory>
    requires { IsHolding book.old held.old.items }
    ensures holding { IsHolding book.new held.new.items }
    ensures settings { book.new.settings ≡ book.old.settings }
    ensures does { IfOk result (λ a. DoesPull by (machine book.old held.old.items) a (machine book.new held.new.items)) }
    ensures err { OnErr result (machine book.new held.new.items ≡ machine book.old held.old.items) }
{
    if book.callers() <= by {
        return Ok(Answer::Refused(PlayFault::NoCaller));
    }
    if has_job(held.as_slice(), by) {
        return Ok(Answer::Refused(PlayFault::HasJob));
    }
    // Its contract tells that the book is sound.
    let _point = book.point();
    let goal = book.imports();
    match book.pull(by, goal)? {
        Pulled::Reached { snapshot, upto } => Ok(Answer::Reached { snapshot, upto }),
        Pulled::Out { out } => Ok(Answer::Out(out)),
        Pulled::Job(job) => {
            held[by as usize] = Some(job);
            Ok(Answer::Got)
        }
    }
}

/// Asks for a job of the build that is open.
pub(crate) fn take(book: &mut Book, held: &mut Vec<Option<Job>>, by: u64) -> Result<Answer, Memory>
    requires { IsHolding book.old held.old.items }
    ensures holding { IsHolding book.new held.new.items }
    ensures settings { book.new.settings ≡ book.old.settings }
    ensures does { IfOk result (λ a. DoesTake by (machine book.old held.old.items) a (machine book.new held.new.items)) }
    ensures err { OnErr result (machine book.new held.new.items ≡ machine book.old held.old.items) }
{
    if book.callers() <= by {
        return Ok(Answer::Refused(PlayFault::NoCaller));
    }
    if has_job(held.as_slice(), by) {
        return Ok(Answer::Refused(PlayFault::HasJob));
    }
    // Its contract tells that the book is sound.
    let _point = book.point();
    match book.take(by)? {
        Taken::Nothing { out } => Ok(Answer::Nothing(out)),
        Taken::Job(job) => {
            held[by as usize] = Some(job);
            Ok(Answer::Got)
        }
    }
}

/// Does the caller's job and hands it in. After want of memory the caller has it still.
pub(crate) fn work<L: Ledger>(
    alloc: Global,
    book: &mut Book,
    held: &mut Vec<Option<Job>>,
    by: u64,
    steps: &mut Steps<L>,
) -> Result<Answer, Memory>
    requires { IsHolding book.old held.old.items }
    ensures holding { IsHolding book.new held.new.items }
    ensures settings { book.new.settings ≡ book.old.settings }
    ensures does { IfOk result (λ a. DoesWork by (machine book.old held.old.items) a (machine book.new held.new.items)) }
    ensures err { OnErr result (machine book.new held.new.items ≡ machine book.old held.old.items) }
{
    if book.callers() <= by {
        return Ok(Answer::Refused(PlayFault::NoCaller));
    }
    if !has_job(held.as_slice(), by) {
        return Ok(Answer::Refused(PlayFault::NoJob));
    }
    // Its contract tells that the book is sound.
    let _point = book.point();
    let Some(job) = held[by as usize].take() else {
        unreachable!()
    };
    match do_job(alloc, job, &OpenGate, steps) {
        Ok(finished) => match handed_in(book, by, finished) {
            Ok(Progress::Going) => Ok(Answer::Going),
            Ok(Progress::Published { snapshot, .. }) => Ok(Answer::Published(snapshot)),
            Err(_) => unreachable!(),
        },
        Err(job) => {
            held[by as usize] = Some(job);
            Err(Memory)
        }
    }
}

// Hands in what a job came to; what the book keeps no longer is dropped here.
fn handed_in(book: &mut Book, by: u64, finished: Finished) -> Result<Progress, Strange>
    requires given { by < book.old.callers }
    requires holds { FinishedHolds outcome IsDone finished book.old.history }
    ensures { Finishes by (outcome finished) book.old result book.new }
{
    let (answer, _gone) = book.finish(by, finished);
    answer
}

/// Hands the caller's job back.
pub(crate) fn back(book: &mut Book, held: &mut Vec<Option<Job>>, by: u64) -> Answer
    requires { IsHolding book.old held.old.items }
    ensures holding { IsHolding book.new held.new.items }
    ensures settings { book.new.settings ≡ book.old.settings }
    ensures does { DoesBack by (machine book.old held.old.items) result (machine book.new held.new.items) }
{
    if book.callers() <= by {
        return Answer::Refused(PlayFault::NoCaller);
    }
    if !has_job(held.as_slice(), by) {
        return Answer::Refused(PlayFault::NoJob);
    }
    // Its contract tells that the book is sound.
    let _point = book.point();
    let Some(job) = held[by as usize].take() else {
        unreachable!()
    };
    match book.give_back(by, job) {
        Ok(()) => Answer::Going,
        Err(_) => unreachable!(),
    }
}

/// After the last step the caller's job is free again, where it has one.
pub(crate) fn end(book: &mut Book, held: &mut Vec<Option<Job>>, by: usize)
    requires holding { IsHolding book.old held.old.items }
    requires within { by < vec_len held.old }
    ensures holding { IsHolding book.new held.new.items }
    ensures settings { book.new.settings ≡ book.old.settings }
    ensures left { held.new.items ≡ slice_set held.old.items by None }
    ensures ends { EndsOne by (slice_index_or held.old.items by None) book.old book.new }
{
    // Its contract tells that the book is sound.
    let _point = book.point();
    let Some(job) = held[by].take() else {
        return;
    };
    match book.give_back(by as u64, job) {
        Ok(()) => {}
        Err(_) => unreachable!(),
    }
}
