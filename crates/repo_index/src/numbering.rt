ghost use Rattle.std.specs.Prelude.{◌≡◌, ◌++◌, ◌^◌, ◌<◌, false, ℕ, List, All, IfOk, IfSome, OnOk, length, map};
ghost use Rattle.std.specs.Arc.{arc_value};
ghost use Rattle.std.specs.List.{AllZip, flat_map};
ghost use Rattle.osv_record.specs.Advisories.{Advisory};
ghost use Rattle.history.specs.declared.past.Past.{Past};
ghost use Rattle.history.specs.Prefixes.{records};
ghost use Rattle.impact_job.specs.Tables.{AreSetsOf};
ghost use Rattle.repo_index.specs.Numbers.{AreNumbers, AreNumbersOf, AreSame, HasRepo, HasRepos, KeepNumbers, entry_keys, range_keys};

use crate::keys::Keys;
use crate::lists::{first_from, kept_at, sets_at};
use impact_set::ImpactSet;
use osv_prim::{List, Memory};
use osv_record::{Affected, Range, Record};
use std::alloc::Global;
use std::sync::Arc;

/// For each advisory the numbers of the repositories of its GIT ranges, by entry and range, and none where it
/// is withdrawn. Those of an advisory that stayed are those of the base, which is of an earlier list, and
/// `moved` says where the advisories of that are in this one; the others are read, and new keys get numbers.
/// It goes once over both lists.
pub(crate) fn numbers_of_all(
    alloc: Global,
    keys: &mut Keys,
    advisories: &[Arc<Record>],
    sets: &[List<Arc<ImpactSet>>],
    base: &[List<u32>],
    moved: &[u32],
) -> Result<Vec<List<u32>>, Memory>
    requires { length advisories.now < 2 ^ 32 }
    ensures numbers { (p : List Past) (old : List Advisory) → map (λ a. arc_value a) advisories.now ≡ records p → AllZip (AreSetsOf p) (records p) sets.now → AreSame moved.now old (records p) → AllZip (AreNumbersOf keys.old) old base.now
        → IfOk result (λ all. AllZip (AreNumbersOf keys.new) (records p) all.items) }
    ensures count { IfOk result (λ all. length all.items ≡ length advisories.now) }
{
    let mut all = Vec::with_capacity(alloc, advisories.len())?;
    let mut from = 0;
    for (place, advisory) in advisories.iter().enumerate() {
        from = first_from(moved, from, place, advisories.len());
        let kept = kept_at(base, moved, from, place);
        let own = numbers_of(alloc, keys, advisory, sets_at(sets, place as u32), kept)?;
        all.push(own)?;
    }
    Ok(all)
}

// Numbers that are there are copied, and else read.
fn numbers_of(
    alloc: Global,
    keys: &mut Keys,
    advisory: &Record,
    sets: &[Arc<ImpactSet>],
    kept: Option<&List<u32>>,
) -> Result<List<u32>, Memory>
    ensures numbers { (p : List Past) → AreSetsOf p advisory.now sets.now → IfSome kept.entry (λ own. AreNumbersOf keys.old advisory.now own.now) → IfOk result (λ own. AreNumbersOf keys.new advisory.now own) }
    ensures kept { OnOk result (KeepNumbers keys.old keys.new) }
{
    match kept {
        Some(own) => copy_of(alloc, own.as_slice()),
        None => read(alloc, keys, advisory, sets),
    }
}

fn copy_of(alloc: Global, numbers: &[u32]) -> Result<List<u32>, Memory>
    ensures { IfOk result (λ copy. copy ≡ numbers.now) }
{
    let mut copy = Vec::with_capacity(alloc, numbers.len())?;
    copy.extend_from_slice(numbers)?;
    Ok(List::from_vec(copy))
}

// Of an advisory without a set, which has no GIT range, nothing is read, and of one that is withdrawn no entry.
fn read(
    alloc: Global,
    keys: &mut Keys,
    advisory: &Record,
    sets: &[Arc<ImpactSet>],
) -> Result<List<u32>, Memory>
    ensures numbers { (p : List Past) → AreSetsOf p advisory.now sets.now → IfOk result (λ own. AreNumbersOf keys.new advisory.now own) }
    ensures kept { OnOk result (KeepNumbers keys.old keys.new) }
{
    let entries = &advisory.affected;
    if sets.is_empty() {
        return Ok(List::new(alloc));
    }
    if advisory.withdrawn {
        return Ok(List::new(alloc));
    }
    let mut own = Vec::with_capacity(alloc, sets.len())?;
    read_entries(alloc, keys, &mut own, entries.as_slice())?;
    Ok(List::from_vec(own))
}

// Puts the numbers of the repositories of ranges at the end.
fn read_entries(
    alloc: Global,
    keys: &mut Keys,
    own: &mut Vec<u32>,
    entries: &[Affected],
) -> Result<(), Memory>
    ensures numbers { (before : List (List ℕ)) → AreNumbers keys.old before own.old.items → OnOk result (AreNumbers keys.new (before ++ flat_map entry_keys entries.now) own.new.items) }
    ensures kept { OnOk result (KeepNumbers keys.old keys.new) }
    ensures repos { OnOk result (All HasRepos entries.now) }
{
    for entry in entries {
        read_ranges(alloc, keys, own, entry.ranges.as_slice())?;
    }
    Ok(())
}

fn read_ranges(
    alloc: Global,
    keys: &mut Keys,
    own: &mut Vec<u32>,
    ranges: &[Range],
) -> Result<(), Memory>
    ensures numbers { (before : List (List ℕ)) → AreNumbers keys.old before own.old.items → OnOk result (AreNumbers keys.new (before ++ flat_map range_keys ranges.now) own.new.items) }
    ensures kept { OnOk result (KeepNumbers keys.old keys.new) }
    ensures repos { OnOk result (All HasRepo ranges.now) }
{
    for range in ranges {
        read_range(alloc, keys, own, range)?;
    }
    Ok(())
}

fn read_range(
    alloc: Global,
    keys: &mut Keys,
    own: &mut Vec<u32>,
    range: &Range,
) -> Result<(), Memory>
    ensures numbers { (before : List (List ℕ)) → AreNumbers keys.old before own.old.items → OnOk result (AreNumbers keys.new (before ++ range_keys range.now) own.new.items) }
    ensures kept { OnOk result (KeepNumbers keys.old keys.new) }
    ensures repo { HasRepo range.now }
{
    match &range.repo {
        None => Ok(()),
        Some(key) => {
            let number = keys.number_or_add(alloc, key)?;
            own.push(number)?;
            Ok(())
        }
    }
}
