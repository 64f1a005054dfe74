ghost use Rattle.std.specs.Prelude.{◌≡◌, ◌∷◌, ◌++◌, ◌≤◌, ◌-◌, [], OnOk, length, map, take, drop, List, ℕ};
ghost use Rattle.std.specs.Arc.{arc_value};
ghost use Rattle.osv_prim.specs.declared.oid.CommitRow.{CommitRow};
ghost use Rattle.osv_record.specs.Advisories.{Advisory};
ghost use Rattle.drill.specs.Imported.{Has, IsOnly, drill_key};

use crate::importing::import_part;
use crate::input::Input;
use crate::publishing::publish;
use book::Book;
use osv_prim::{CommitRow, Ledger, Memory, Steps};
use osv_record::Record;
use settings::Settings;
use std::alloc::Global;
use std::sync::Arc;

// Where the second, the third and the fourth part begin: the number n is in the part t where
// 4 n / count is t, rounded down.
#[derive(Clone, Copy)]
struct Places {
    second: usize,
    third: usize,
    fourth: usize,
}

fn quarters(count: usize) -> Places
    ensures second { result.second ≤ result.third }
    ensures third { result.third ≤ result.fourth }
    ensures fourth { result.fourth ≤ count }
{
    let whole = count / 4;
    let over = count % 4;
    Places {
        second: whole + (over + 3) / 4,
        third: 2 * whole + (2 * over + 3) / 4,
        fourth: 3 * whole + (3 * over + 3) / 4,
    }
}

// The members from one number up to another.
fn part<T>(list: &[T], from: usize, to: usize) -> &[T]
    requires from { from ≤ to }
    requires to { to ≤ length list.now }
    ensures { result.now ≡ take (to - from) (drop from list.now) }
{
    &list[from..to]
}

// A part is imported, and then published.
fn play_part<L: Ledger>(
    alloc: Global,
    book: &mut Book,
    by: u64,
    rows: &[CommitRow],
    advisories: &[Arc<Record>],
    from: usize,
    settings: &Settings,
    steps: &mut Steps<L>,
) -> Result<(), Memory>
    requires { book.old.settings ≡ settings.now }
    ensures settings { book.new.settings ≡ book.old.settings }
    ensures has { (a : List Advisory) (ks : List (List ℕ)) (before : List CommitRow) → IsOnly ks → Has book.old a ks before
        → OnOk result (Has book.new (a ++ map (λ x. arc_value x) advisories.now) (drill_key ∷ []) (before ++ rows.now)) }
{
    import_part(alloc, book, by, rows, advisories, from, settings, steps)?;
    publish(alloc, book, settings, steps)
}

/// All four parts, by the two callers in turn.
pub(crate) fn play_parts<L: Ledger>(
    alloc: Global,
    book: &mut Book,
    input: &Input,
    settings: &Settings,
    steps: &mut Steps<L>,
) -> Result<(), Memory>
    requires { book.old.settings ≡ settings.now }
    ensures settings { book.new.settings ≡ book.old.settings }
    ensures has { Has book.old [] [] [] → OnOk result (Has book.new (map (λ x. arc_value x) input.now.advisories.items) (drill_key ∷ []) input.now.rows.items) }
{
    let rows = input.rows.as_slice();
    let r = quarters(rows.len());
    let all = input.advisories.as_slice();
    let a = quarters(all.len());
    let first = part(all, 0, a.second);
    play_part(
        alloc,
        book,
        0,
        part(rows, 0, r.second),
        first,
        0,
        settings,
        steps,
    )?;
    let second = part(all, a.second, a.third);
    play_part(
        alloc,
        book,
        1,
        part(rows, r.second, r.third),
        second,
        a.second,
        settings,
        steps,
    )?;
    let third = part(all, a.third, a.fourth);
    play_part(
        alloc,
        book,
        0,
        part(rows, r.third, r.fourth),
        third,
        a.third,
        settings,
        steps,
    )?;
    let fourth = part(all, a.fourth, all.len());
    let last = part(rows, r.fourth, rows.len());
    play_part(alloc, book, 1, last, fourth, a.fourth, settings, steps)
}
