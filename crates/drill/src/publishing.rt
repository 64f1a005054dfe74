ghost use Rattle.std.specs.Prelude.{◌≡◌, ◌≤◌, ℕ, List, IfOk, OnOk, length};
ghost use Rattle.osv_prim.specs.declared.oid.CommitRow.{CommitRow};
ghost use Rattle.osv_record.specs.Advisories.{Advisory};
ghost use Rattle.history.specs.Entries.{imports, newest};
ghost use Rattle.book_model.specs.State.{published};
ghost use Rattle.drill.specs.Imported.{Has, IsPublished};

use crate::single::one;
use book::Book;
use osv_prim::{Ledger, Memory, Steps};
use schedule::{Answer, Step, play};
use settings::Settings;
use std::alloc::Global;

// Both callers ask for a snapshot of all imports, and each that got a job does it. The answer to the
// first of them.
fn round<L: Ledger>(
    alloc: Global,
    book: &mut Book,
    settings: &Settings,
    steps: &mut Steps<L>,
) -> Result<bool, Memory>
    requires { book.old.settings ≡ settings.now }
    ensures settings { book.new.settings ≡ book.old.settings }
    ensures has { (a : List Advisory) (ks : List (List ℕ)) (rows : List CommitRow) → Has book.old a ks rows → OnOk result (Has book.new a ks rows) }
{
    let list = [
        Step::Pull { by: 0 },
        Step::Pull { by: 1 },
        Step::Work { by: 0 },
        Step::Work { by: 1 },
    ];
    let answers = play(alloc, book, list.as_slice(), settings, steps)?;
    Ok(matches!(answers.first(), Some(Answer::Reached { .. })))
}

/// Rounds of both callers until all imports are published.
pub(crate) fn publish<L: Ledger>(
    alloc: Global,
    book: &mut Book,
    settings: &Settings,
    steps: &mut Steps<L>,
) -> Result<(), Memory>
    requires { book.old.settings ≡ settings.now }
    ensures settings { book.new.settings ≡ book.old.settings }
    ensures has { (a : List Advisory) (ks : List (List ℕ)) (rows : List CommitRow) → Has book.old a ks rows → OnOk result (Has book.new a ks rows) }
{
    for _ in 0..u64::MAX {
        if round(alloc, book, settings, steps)? {
            break;
        }
    }
    Ok(())
}

/// The number of the newest snapshot, where it is of all imports; they are asked for once more.
pub(crate) fn newest<L: Ledger>(
    alloc: Global,
    book: &mut Book,
    settings: &Settings,
    steps: &mut Steps<L>,
) -> Result<u64, Memory>
    requires { book.old.settings ≡ settings.now }
    ensures settings { book.new.settings ≡ book.old.settings }
    ensures has { (a : List Advisory) (ks : List (List ℕ)) (rows : List CommitRow) → Has book.old a ks rows → IfOk result (λ n. Has book.new a ks rows) }
    ensures published { IfOk result (λ n. (n ≡ newest book.new.history) × IsPublished book.new) }
{
    match one(alloc, book, Step::Pull { by: 0 }, settings, steps)? {
        Answer::Reached { snapshot, .. } => Ok(snapshot),
        _ => Err(Memory),
    }
}
