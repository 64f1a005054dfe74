ghost use Rattle.std.specs.Prelude.{◌≡◌, ℕ, List, take, map, option_map, IfOk, OnErr};
ghost use Rattle.snapshot.specs.Jobs.{name};
ghost use Rattle.schedule.specs.declared.step.Answer.{Answer};
ghost use Rattle.schedule.specs.Machine.{Does, Plays, none_of, EndsFrom, IsPlayed};
ghost use Rattle.schedule.specs.Holding.{machine, IsHolding};

use crate::calls::{enrol, grow, import, look};
use crate::jobs::{back, end, pull, take, work};
use crate::step::{Answer, Step};
use book::Book;
use osv_prim::{Ledger, Memory, Steps};
use settings::Settings;
use snapshot::Job;
use std::alloc::Global;

// One step.
fn act<L: Ledger>(
    alloc: Global,
    book: &mut Book,
    held: &mut Vec<Option<Job>>,
    step: &Step,
    settings: &Settings,
    steps: &mut Steps<L>,
) -> Result<Answer, Memory>
    requires holding { IsHolding book.old held.old.items }
    requires settings { book.old.settings ≡ settings.now }
    ensures holding { IsHolding book.new held.new.items }
    ensures settings { book.new.settings ≡ book.old.settings }
    ensures does { IfOk result (λ a. Does step.now (machine book.old held.old.items) a (machine book.new held.new.items)) }
    ensures err { OnErr result (machine book.new held.new.items ≡ machine book.old held.old.items) }
{
    match step {
        Step::Enrol => enrol(book, held),
        Step::Import { by, advisory } => import(book, held.as_slice(), *by, advisory),
        Step::Grow { by, key, rows } => grow(
            alloc,
            book,
            held.as_slice(),
            *by,
            key,
            rows.as_slice(),
            settings.commits,
            steps,
        ),
        Step::Pull { by } => pull(book, held, *by),
        Step::Take { by } => take(book, held, *by),
        Step::Work { by } => work(alloc, book, held, *by, steps),
        Step::Back { by } => Ok(back(book, held, *by)),
        Step::Look {
            by,
            subject,
            named,
            after,
        } => look(
            alloc,
            book,
            held.as_slice(),
            *by,
            subject,
            *named,
            after.as_ref(),
            settings.page,
            steps,
        ),
    }
}

// The steps of a list, one after another. After want of memory the last of those that were begun did
// nothing.
fn play_all<L: Ledger>(
    alloc: Global,
    book: &mut Book,
    held: &mut Vec<Option<Job>>,
    list: &[Step],
    settings: &Settings,
    steps: &mut Steps<L>,
) -> Result<Vec<Answer>, Memory>
    requires holding { IsHolding book.old held.old.items }
    requires settings { book.old.settings ≡ settings.now }
    ensures holding { IsHolding book.new held.new.items }
    ensures settings { book.new.settings ≡ book.old.settings }
    ensures ok { IfOk result (λ answers. Plays list.now (machine book.old held.old.items) answers.items (machine book.new held.new.items)) }
    ensures err { OnErr result ((done : ℕ) × (answers : List Answer) × Plays (take done list.now) (machine book.old held.old.items) answers (machine book.new held.new.items)) }
{
    let mut answers = Vec::with_capacity(alloc, list.len())?;
    for step in list {
        let answer = act(alloc, book, held, step, settings, steps)?;
        answers.push_reserved(answer);
    }
    Ok(answers)
}

// Callers without a job, so many.
fn none_held(alloc: Global, callers: u64) -> Result<Vec<Option<Job>>, Memory>
    ensures { IfOk result (λ held. held.items ≡ none_of callers) }
{
    let mut held = Vec::new(alloc);
    for caller in 0..callers {
        held.push(None)?;
    }
    Ok(held)
}

// The jobs that are out are free again.
fn end_all(book: &mut Book, held: &mut Vec<Option<Job>>)
    requires { IsHolding book.old held.old.items }
    ensures settings { book.new.settings ≡ book.old.settings }
    ensures ends { EndsFrom 0 (map (λ job. option_map name job) held.old.items) book.old book.new }
{
    for by in 0..held.len() {
        end(book, held, by);
    }
}

/// Carries out the steps of a list, one after another, and gives their answers. The settings are the
/// book's. After the last step the jobs that are still out are free again. Only memory can fail: then some
/// of the steps are done, the first so many.
pub fn play<L: Ledger>(
    alloc: Global,
    book: &mut Book,
    list: &[Step],
    settings: &Settings,
    steps: &mut Steps<L>,
) -> Result<Vec<Answer>, Memory>
    requires { book.old.settings ≡ settings.now }
    ensures settings { book.new.settings ≡ book.old.settings }
    ensures ok { IfOk result (λ answers. IsPlayed list.now book.old answers.items book.new) }
    ensures err { OnErr result ((done : ℕ) × (answers : List Answer) × IsPlayed (take done list.now) book.old answers book.new) }
{
    let mut held = none_held(alloc, book.callers())?;
    let played = play_all(alloc, book, &mut held, list, settings, steps);
    end_all(book, &mut held);
    played
}
