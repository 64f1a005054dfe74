ghost use Rattle.std.specs.Prelude.{◌≡◌, ◌+◌, ◌∷◌, ◌++◌, ◌<◌, ◌≤◌, [], ℕ, List, IfOk, OnOk, length, map, take};
ghost use Rattle.std.specs.Arc.{arc_value};
ghost use Rattle.osv_prim.specs.declared.oid.CommitRow.{CommitRow};
ghost use Rattle.osv_record.specs.Advisories.{Advisory};
ghost use Rattle.drill.specs.Imported.{Has, IsOnly, drill_key};

use crate::single::one;
use book::Book;
use drill_input::repo_key;
use osv_prim::{CommitRow, Ledger, List, Memory, Steps};
use osv_record::Record;
use schedule::{Answer, Step};
use settings::Settings;
use std::alloc::Global;
use std::sync::Arc;

// One advisory. It has room in the book, which tests show and nothing here proves: a refusal would end a
// drill as want of memory does.
fn import<L: Ledger>(
    alloc: Global,
    book: &mut Book,
    by: u64,
    advisory: &Arc<Record>,
    settings: &Settings,
    steps: &mut Steps<L>,
) -> Result<(), Memory>
    requires { book.old.settings ≡ settings.now }
    ensures settings { book.new.settings ≡ book.old.settings }
    ensures has { (a : List Advisory) (ks : List (List ℕ)) (rows : List CommitRow) → Has book.old a ks rows → OnOk result (Has book.new (a ++ arc_value advisory.now ∷ []) ks rows) }
{
    let shared = Arc::try_clone(advisory)?;
    let step = Step::Import {
        by,
        advisory: shared,
    };
    let answer = one(alloc, book, step, settings, steps)?;
    let Answer::Entry(_place) = answer else {
        return Err(Memory);
    };
    Ok(())
}

// The advisories of a part, each by the caller of its number's parity.
fn import_all<L: Ledger>(
    alloc: Global,
    book: &mut Book,
    advisories: &[Arc<Record>],
    from: usize,
    settings: &Settings,
    steps: &mut Steps<L>,
) -> Result<(), Memory>
    requires { book.old.settings ≡ settings.now }
    ensures settings { book.new.settings ≡ book.old.settings }
    ensures has { (a : List Advisory) (ks : List (List ℕ)) (rows : List CommitRow) → Has book.old a ks rows → OnOk result (Has book.new (a ++ map (λ x. arc_value x) advisories.now) ks rows) }
{
    let mut by = (from % 2) as u64;
    for advisory in advisories {
        import(alloc, book, by, advisory, settings, steps)?;
        by = (by + 1) % 2;
    }
    Ok(())
}

fn copied(alloc: Global, rows: &[CommitRow]) -> Result<List<CommitRow>, Memory>
    ensures { IfOk result (λ l. l ≡ rows.now) }
{
    let mut list = Vec::with_capacity(alloc, rows.len())?;
    for row in rows {
        list.push(row.copy(alloc)?)?;
    }
    Ok(List::from_vec(list))
}

// The commits of a part, which have a graph.
fn grow<L: Ledger>(
    alloc: Global,
    book: &mut Book,
    by: u64,
    rows: &[CommitRow],
    settings: &Settings,
    steps: &mut Steps<L>,
) -> Result<(), Memory>
    requires { book.old.settings ≡ settings.now }
    ensures settings { book.new.settings ≡ book.old.settings }
    ensures has { (a : List Advisory) (ks : List (List ℕ)) (before : List CommitRow) → IsOnly ks → Has book.old a ks before → OnOk result (Has book.new a (drill_key ∷ []) (before ++ rows.now)) }
{
    let step = Step::Grow {
        by,
        key: repo_key(alloc)?,
        rows: copied(alloc, rows)?,
    };
    let answer = one(alloc, book, step, settings, steps)?;
    let Answer::Entry(_place) = answer else {
        return Err(Memory);
    };
    Ok(())
}

/// The commits of a part, and then its advisories. Those of the part are numbered from `from` on.
pub(crate) fn import_part<L: Ledger>(
    alloc: Global,
    book: &mut Book,
    by: u64,
    rows: &[CommitRow],
    advisories: &[Arc<Record>],
    from: usize,
    settings: &Settings,
    steps: &mut Steps<L>,
) -> Result<(), Memory>
    requires { book.old.settings ≡ settings.now }
    ensures settings { book.new.settings ≡ book.old.settings }
    ensures has { (a : List Advisory) (ks : List (List ℕ)) (before : List CommitRow) → IsOnly ks → Has book.old a ks before
        → OnOk result (Has book.new (a ++ map (λ x. arc_value x) advisories.now) (drill_key ∷ []) (before ++ rows.now)) }
{
    grow(alloc, book, by, rows, settings, steps)?;
    import_all(alloc, book, advisories, from, settings, steps)
}
