ghost use Rattle.std.specs.Prelude.{◌≡◌, ◌++◌, map, IfOk, OnOk};
ghost use Rattle.std.specs.Arc.{arc_value};
ghost use Rattle.osv_record.specs.Imports.{records_from};
ghost use Rattle.impact_job.specs.Order.{Ascend};

use crate::split::split_at_id;
use osv_prim::Memory;
use osv_record::Record;
use std::alloc::Global;
use std::sync::Arc;

/// The advisories of a base, each in place of that with its id among those that changed, and the new
/// ones. It takes one `Arc` more for each, and O(log n) comparisons for each that changed.
pub(crate) fn merged(
    alloc: Global,
    base: &[Arc<Record>],
    changed: &[&Arc<Record>],
) -> Result<Vec<Arc<Record>>, Memory>
    ensures { Ascend (map (λ a. arc_value a) base.now) → Ascend (map (λ a. arc_value a.now) changed.now)
        → IfOk result (λ v. map (λ a. arc_value a) v.items ≡ records_from (map (λ a. arc_value a) base.now) (map (λ a. arc_value a.now) changed.now)) }
{
    let mut records = Vec::with_capacity(alloc, base.len())?;
    let mut rest = base;
    for record in changed {
        let parts = split_at_id(rest, record.id.as_str().as_bytes());
        put_all(&mut records, parts.below)?;
        records.push(Arc::try_clone(record)?)?;
        rest = parts.above;
    }
    put_all(&mut records, rest)?;
    Ok(records)
}

fn put_all(records: &mut Vec<Arc<Record>>, more: &[Arc<Record>]) -> Result<(), Memory>
    ensures { OnOk result (map (λ a. arc_value a) records.new.items ≡ map (λ a. arc_value a) records.old.items ++ map (λ a. arc_value a) more.now) }
{
    for record in more {
        records.push(Arc::try_clone(record)?)?;
    }
    Ok(())
}
