ghost use Rattle.std.specs.Prelude.{◌≡◌, ◌<◌, ◌∷◌, [], ℕ, List, IfOk, OnOk, string_bytes};
ghost use Rattle.osv_prim.specs.declared.oid.CommitRow.{CommitRow};
ghost use Rattle.osv_record.specs.Advisories.{Advisory};
ghost use Rattle.drill.specs.Imported.{Has};
ghost use Rattle.drill.specs.Drilled.{drilled, line};

use crate::asking::{count_commits, count_packages};
use crate::input::drawn;
use crate::parts::play_parts;
use crate::publishing::newest;
use crate::single::one;
use book::Book;
use osv_prim::{Ledger, Memory, Steps};
use schedule::Step;
use settings::Settings;
use std::alloc::Global;

// A further caller.
fn enrol<L: Ledger>(
    alloc: Global,
    book: &mut Book,
    settings: &Settings,
    steps: &mut Steps<L>,
) -> Result<(), Memory>
    requires { book.old.settings ≡ settings.now }
    ensures settings { book.new.settings ≡ book.old.settings }
    ensures has { (a : List Advisory) (ks : List (List ℕ)) (rows : List CommitRow) → Has book.old a ks rows → OnOk result (Has book.new a ks rows) }
{
    let _number = one(alloc, book, Step::Enrol, settings, steps)?;
    Ok(())
}

#[tactic(auto, unfolding(crate::specs::Drilled::line))]
fn line(alloc: Global, size: u32, packages: u64, commits: u64) -> Result<String, Memory>
    ensures { IfOk result (λ t. string_bytes t ≡ line size packages commits) }
{
    let entries = size as u64 + 8;
    Ok(format!(in alloc;
        "entries {entries} snapshots 4 records {size} commits {size} package-hits {packages} commit-hits {commits}\n"
    )?)
}

/// The line of a drill: `size` commits and as many advisories, which are drawn from the seed, are imported in
/// four parts by two callers, each part is published, and the newest snapshot is asked for ten packages and
/// ten commits. It is the same at each run. Only memory can fail.
pub fn drill<L: Ledger>(
    alloc: Global,
    seed: u64,
    size: u32,
    steps: &mut Steps<L>,
) -> Result<String, Memory>
    requires { 0 < size }
    ensures { IfOk result (λ text. string_bytes text ≡ drilled seed size) }
{
    let input = drawn(alloc, seed, size)?;
    let settings = Settings {
        page: size,
        ..Settings::default()
    };
    let mut book = Book::new(alloc, settings)?;
    enrol(alloc, &mut book, &settings, steps)?;
    enrol(alloc, &mut book, &settings, steps)?;
    play_parts(alloc, &mut book, &input, &settings, steps)?;
    let snapshots = newest(alloc, &mut book, &settings, steps)?;
    // What the line tells is so, or there is none.
    if snapshots != 4 || book.point() != size as u64 + 8 {
        return Err(Memory);
    }
    let packages = count_packages(alloc, &mut book, &settings, steps)?;
    let commits = count_commits(alloc, &mut book, input.asked.as_slice(), &settings, steps)?;
    line(alloc, size, packages, commits)
}
