ghost use Rattle.std.specs.Prelude.{◌≡◌, map, IfOk};
ghost use Rattle.std.specs.Arc.{arc_value};
ghost use Rattle.std.specs.BTreeMap.{values};
ghost use Rattle.osv_record.specs.Imports.{records};
ghost use Rattle.evaluate.specs.Hits.{keyed};

use osv_prim::{Id, Memory};
use osv_record::Record;
use std::alloc::{AllocError, Global};
use std::collections::BTreeMap;
use std::sync::Arc;

/// The last of each id, ascending by id.
pub(crate) fn last_of_each_id<'a>(
    alloc: Global,
    added: &'a [Arc<Record>],
) -> Result<Vec<&'a Arc<Record>>, Memory>
    ensures { IfOk result (λ v. map (λ a. arc_value a.now) v.items ≡ records (map (λ a. arc_value a) added.now)) }
{
    let found = by_id(alloc, added)?;
    Ok(values_of(alloc, found)?)
}

fn by_id<'a>(
    alloc: Global,
    added: &'a [Arc<Record>],
) -> Result<BTreeMap<&'a Id, &'a Arc<Record>>, Memory>
    ensures { IfOk result (λ m. map (λ e. (e.0.now, arc_value e.1.now)) m.entries ≡ map keyed (records (map (λ a. arc_value a) added.now))) }
{
    let mut found = BTreeMap::new(alloc);
    for record in added {
        found.insert(&record.id, record)?;
    }
    Ok(found)
}

fn values_of<'a>(
    alloc: Global,
    found: BTreeMap<&'a Id, &'a Arc<Record>>,
) -> Result<Vec<&'a Arc<Record>>, AllocError>
    ensures { IfOk result (λ v. v.items ≡ values found.entry) }
{
    found.into_values().collect(alloc)
}
