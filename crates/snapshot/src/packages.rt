ghost use Rattle.std.specs.Prelude.{◌≡◌, ℕ, List, ◌+◌, ◌<◌, ◌≤◌, All, IfOk, filter, length, map, nat_le, nat_lt, option_map, slice_get, slice_index_or};
ghost use Rattle.std.specs.Arc.{arc_value};
ghost use Rattle.std.specs.List.Sorted.{IsPartitionedBy, IsPartitionPoint, IsStrictlySortedBy};
ghost use Rattle.std.specs.Ordering.{nat_cmp};
ghost use Rattle.std.specs.Prelude.{true, false};
ghost use Rattle.osv_prim.specs.declared.package.PackageKey.{PackageKey as Key};
ghost use Rattle.osv_record.specs.Advisories.{Advisory};
ghost use Rattle.package_index.specs.Index.{found};
ghost use Rattle.package_index.specs.Listing.{listed};
ghost use Rattle.record_moves.specs.Moved.{IsMoved};
ghost use Rattle.evaluate.specs.Hits.{version_hit};
ghost use Rattle.range_hits.specs.Forms.{AreFormsOf};
ghost use Rattle.form_index.specs.Index.{AreIndexed};
ghost use Rattle.snapshot.specs.Ranges.{IsKeysOf};
ghost use Rattle.snapshot.specs.Pages.{cut, found_seen};
ghost use Rattle.snapshot.specs.Subjects.{is_package_hit};

use crate::page::Found;
use evaluate::version_hit;
use form_index::FormIndex;
use osv_prim::{Ledger, Memory, PackageKey, Steps, Text};
use osv_record::Record;
use package_index::PackageIndex;
use range_hits::{AskedVersion, CompiledRange};
use record_moves::Moves;
use std::alloc::Global;
use std::sync::Arc;

// Indexes of advisories have 32 bits.
pub(crate) const INDEXES: usize = 1 << 32;

/// Which advisories have an entry of each package, from the index of the list before and where its advisories
/// are in this one. It is refused, as for want of memory, where there are 2^32 advisories.
pub(crate) fn renewed_index(
    alloc: Global,
    records: &[Arc<Record>],
    base: &PackageIndex,
    moves: &Moves,
) -> Result<PackageIndex, Memory>
    ensures { (old : List Advisory) → IsMoved moves.now old (map (λ a. arc_value a) records.now) → ((asked : Key) → found base.now asked ≡ listed old asked)
        → IfOk result (λ index. (asked : Key) → found index asked ≡ listed (map (λ a. arc_value a) records.now) asked) }
{
    if records.len() >= INDEXES {
        return Err(Memory);
    }
    base.renew(alloc, records, moves)
}

/// Of indexes that ascend, those from this one on, by O(log n) comparisons.
pub(crate) fn from_index(indexes: &[u32], start: usize) -> &[u32]
    ensures { IsStrictlySortedBy nat_cmp indexes.now → result.now ≡ filter (λ i. nat_le start i) indexes.now }
{
    &indexes[count_below(indexes, start)..]
}

fn count_below(indexes: &[u32], start: usize) -> usize
    ensures within { result ≤ length indexes.now }
    ensures point { IsPartitionedBy (λ i. nat_lt i start) indexes.now → IsPartitionPoint (λ i. nat_lt i start ≡ true) (λ i. nat_lt i start ≡ false) indexes.now result }
{
    indexes.partition_point(|index| (*index as usize) < start)
}

/// The text of a version, where one is asked for.
pub(crate) fn as_text(version: &Option<Text>) -> Option<&str>
    ensures { option_map (λ t. t.now) result ≡ version.now }
{
    match version {
        Some(version) => Some(version.as_str()),
        None => None,
    }
}

/// The first `size` hits of a package among the advisories at these indexes, of which one that isn't there is
/// passed over. It looks no further than the first hit behind them.
pub(crate) fn first_package_hits<'a, L: Ledger>(
    alloc: Global,
    records: &'a [Arc<Record>],
    ranges: &FormIndex,
    indexes: &[u32],
    asked: &PackageKey,
    version: Option<&str>,
    keys: &Option<AskedVersion>,
    size: u32,
    steps: &mut Steps<L>,
) -> Result<Found<'a>, Memory>
    ensures page { (none : Advisory) → AreIndexed (map (λ a. arc_value a) records.now) ranges.now → IsKeysOf keys.now (option_map (λ t. t.now) version.entry) → All (λ i. i < length records.now) indexes.now → IfOk result (λ found. found_seen found ≡ cut size (filter (is_package_hit asked.now (option_map (λ t. t.now) version.entry)) (map (λ i. slice_index_or (map (λ a. arc_value a) records.now) i none) indexes.now))) }
    ensures graph { steps.new.graph ≡ steps.old.graph }
    ensures records { steps.new.record_count ≤ steps.old.record_count + length indexes.now }
{
    let mut found = Vec::new(alloc);
    for index in indexes {
        let Some(advisory) = advisory_at(records, *index) else {
            continue;
        };
        let forms = ranges.of(*index);
        if !is_package_hit(alloc, advisory, forms, asked, version, keys, steps)? {
            continue;
        }
        if found.len() >= size as usize {
            return Ok(Found {
                hits: found,
                more: true,
            });
        }
        found.push(advisory)?;
    }
    Ok(Found {
        hits: found,
        more: false,
    })
}

/// The advisory at an index, where it is there.
pub(crate) fn advisory_at(records: &[Arc<Record>], index: u32) -> Option<&Arc<Record>>
    ensures { option_map (λ a. arc_value a.now) result ≡ slice_get (map (λ a. arc_value a) records.now) index }
{
    records.get(index as usize)
}

// Whether an advisory that isn't withdrawn affects a package, in the version where one is asked for, by the
// forms of its ranges. It counts as one read of it.
fn is_package_hit<L: Ledger>(
    alloc: Global,
    advisory: &Record,
    forms: &[CompiledRange],
    asked: &PackageKey,
    version: Option<&str>,
    keys: &Option<AskedVersion>,
    steps: &mut Steps<L>,
) -> Result<bool, Memory>
    ensures hit { AreFormsOf advisory.now forms.now → IsKeysOf keys.now (option_map (λ t. t.now) version.entry) → IfOk result (λ b. b ≡ is_package_hit asked.now (option_map (λ t. t.now) version.entry) advisory.now) }
    ensures graph { steps.new.graph ≡ steps.old.graph }
    ensures records { steps.new.record_count ≡ steps.old.record_count + 1 }
{
    steps.record_tick();
    if advisory.withdrawn {
        return Ok(false);
    }
    affects(alloc, advisory, forms, asked, version, keys)
}

fn affects(
    alloc: Global,
    advisory: &Record,
    forms: &[CompiledRange],
    asked: &PackageKey,
    version: Option<&str>,
    keys: &Option<AskedVersion>,
) -> Result<bool, Memory>
    ensures { AreFormsOf advisory.now forms.now → IsKeysOf keys.now (option_map (λ t. t.now) version.entry) → IfOk result (λ b. b ≡ version_hit advisory.now asked.now (option_map (λ t. t.now) version.entry)) }
{
    match version {
        None => version_hit(alloc, advisory, asked, None),
        Some(text) => match keys {
            Some(keys) => Ok(range_hits::version_hit(advisory, forms, asked, text, keys)),
            None => version_hit(alloc, advisory, asked, Some(text)),
        },
    }
}
