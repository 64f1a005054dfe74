ghost use Rattle.std.specs.Prelude.{◌≡◌, ◌++◌, List, length, map, IfOk, OnOk};
ghost use Rattle.std.specs.Arc.{arc_value};
ghost use Rattle.std.specs.List.{AllZip};
ghost use Rattle.osv_record.specs.Advisories.{Advisory};
ghost use Rattle.osv_record.specs.Imports.{records_from};
ghost use Rattle.history.specs.declared.past.Past.{Past};
ghost use Rattle.history.specs.Prefixes.{records};
ghost use Rattle.impact_job.specs.Order.{Ascend};
ghost use Rattle.impact_job.specs.Tables.{StandsFor, AreSetsOf, git_counts};

use crate::split::{parted, split_at_id};
use crate::tables::{Tables, without};
use impact_set::ImpactSet;
use osv_prim::{List, Memory};
use osv_record::Record;
use std::alloc::Global;
use std::sync::Arc;

/// How many GIT ranges each advisory has once those that changed are merged with a base. One of the base has as
/// many as it has sets, so nothing of it is read. It takes 4 bytes for each advisory, and O(log n) comparisons for
/// each that changed.
pub(crate) fn counts_of(
    alloc: Global,
    base: &Tables,
    changed: &[&Arc<Record>],
) -> Result<Vec<u32>, Memory>
    ensures { (b : List Past) → StandsFor base.now b → Ascend (map (λ a. arc_value a.now) changed.now)
        → IfOk result (λ v. v.items ≡ git_counts (records_from (records b) (map (λ a. arc_value a.now) changed.now))) }
{
    let mut counts = Vec::with_capacity(alloc, base.sets.len())?;
    let mut rest = base.records.as_slice();
    let mut sets = base.sets.as_slice();
    for record in changed {
        let parts = split_at_id(rest, record.id.as_str().as_bytes());
        let after = put_first(&mut counts, parts.below.len(), sets)?;
        counts.push(record.git_ranges())?;
        sets = without(after, parts.found);
        rest = parts.above;
    }
    put_first(&mut counts, rest.len(), sets)?;
    Ok(counts)
}

// How many sets each of so many advisories has, and the sets of later ones.
fn put_first<'s>(
    counts: &mut Vec<u32>,
    count: usize,
    sets: &'s [List<Arc<ImpactSet>>],
) -> Result<&'s [List<Arc<ImpactSet>>], Memory>
    ensures { (b : List Past) (rs more : List Advisory) → length rs ≡ count → AllZip (AreSetsOf b) (rs ++ more) sets.now
        → IfOk result (λ later. (counts.new.items ≡ counts.old.items ++ git_counts rs) × AllZip (AreSetsOf b) more later.now) }
{
    let (own, later) = parted(sets, count);
    put_each(counts, own)?;
    Ok(later)
}

fn put_each(counts: &mut Vec<u32>, sets: &[List<Arc<ImpactSet>>]) -> Result<(), Memory>
    ensures { OnOk result (counts.new.items ≡ counts.old.items ++ map (λ own. length own) sets.now) }
{
    for own in sets {
        counts.push(number_of(own.len())?)?;
    }
    Ok(())
}

/// A count in 4 bytes. No memory has more.
pub(crate) fn number_of(count: usize) -> Result<u32, Memory>
    ensures { IfOk result (λ n. n ≡ count) }
{
    if count > u32::MAX as usize {
        return Err(Memory);
    }
    Ok(count as u32)
}
