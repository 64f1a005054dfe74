ghost use Rattle.std.specs.Prelude.{◌≡◌, ◌∷◌, [], ℕ, List, IfOk, OnOk, length};
ghost use Rattle.evaluate.specs.Hits.{hits};
ghost use Rattle.osv_prim.specs.declared.oid.CommitRow.{CommitRow};
ghost use Rattle.osv_record.specs.Advisories.{Advisory};
ghost use Rattle.drill.specs.Imported.{Has, IsPublished, drill_key};
ghost use Rattle.drill.specs.Drilled.{all_hits, commit_hits, package_hits};

use crate::single::one;
use book::Book;
use drill_input::{QUESTIONS, package_question};
use osv_prim::{Ledger, Memory, Oid, Steps, Subject};
use schedule::{Answer, Step};
use settings::Settings;
use std::alloc::Global;

// How many hits the newest snapshot has. They are on one page: there are no more advisories than a page
// has room for.
fn count<L: Ledger>(
    alloc: Global,
    book: &mut Book,
    subject: Subject,
    settings: &Settings,
    steps: &mut Steps<L>,
) -> Result<u64, Memory>
    requires settings { book.old.settings ≡ settings.now }
    requires published { IsPublished book.old }
    ensures settings { book.new.settings ≡ book.old.settings }
    ensures published { OnOk result (IsPublished book.new) }
    ensures has { (a : List Advisory) (rows : List CommitRow) → Has book.old a (drill_key ∷ []) rows
        → IfOk result (λ n. Has book.new a (drill_key ∷ []) rows × (n ≡ all_hits a rows subject)) }
{
    let step = Step::Look {
        by: 0,
        subject,
        named: None,
        after: None,
    };
    match one(alloc, book, step, settings, steps)? {
        Answer::Page(page) if !page.more => Ok(page.found.as_slice().len() as u64),
        _ => Err(Memory),
    }
}

/// How many hits the ten packages have together.
pub(crate) fn count_packages<L: Ledger>(
    alloc: Global,
    book: &mut Book,
    settings: &Settings,
    steps: &mut Steps<L>,
) -> Result<u64, Memory>
    requires settings { book.old.settings ≡ settings.now }
    requires published { IsPublished book.old }
    ensures settings { book.new.settings ≡ book.old.settings }
    ensures published { OnOk result (IsPublished book.new) }
    ensures has { (a : List Advisory) (rows : List CommitRow) → Has book.old a (drill_key ∷ []) rows
        → IfOk result (λ n. Has book.new a (drill_key ∷ []) rows × (n ≡ package_hits QUESTIONS a rows)) }
{
    let mut sum = 0u64;
    for number in 0..QUESTIONS {
        let subject = package_question(alloc, number)?;
        let hits = count(alloc, book, subject, settings, steps)?;
        sum = sum.checked_add(hits).ok_or(Memory)?;
    }
    Ok(sum)
}

/// How many hits these commits have together.
pub(crate) fn count_commits<L: Ledger>(
    alloc: Global,
    book: &mut Book,
    commits: &[Oid],
    settings: &Settings,
    steps: &mut Steps<L>,
) -> Result<u64, Memory>
    requires settings { book.old.settings ≡ settings.now }
    requires published { IsPublished book.old }
    ensures settings { book.new.settings ≡ book.old.settings }
    ensures published { OnOk result (IsPublished book.new) }
    ensures has { (a : List Advisory) (rows : List CommitRow) → Has book.old a (drill_key ∷ []) rows
        → IfOk result (λ n. Has book.new a (drill_key ∷ []) rows × (n ≡ commit_hits commits.now a rows)) }
{
    let mut sum = 0u64;
    for commit in commits {
        let hits = count(alloc, book, Subject::Commit(*commit), settings, steps)?;
        sum = sum.checked_add(hits).ok_or(Memory)?;
    }
    Ok(sum)
}
