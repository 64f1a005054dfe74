ghost use Rattle.std.specs.Prelude.{◌++◌, List, IfOk, OnOk};
ghost use Rattle.std.specs.List.{AllZip};
ghost use Rattle.range_hits.specs.Forms.{AreFormsOf, IsFormIn, Ranged, with_package};

use crate::form::CompiledRange;
use osv_prim::{List, Memory, PackageKey};
use osv_record::{Affected, Range, Record};
use std::alloc::Global;

/// The compiled forms of an advisory's ranges, by entry and range, with one for those of commits too. Each
/// value of an event is read once. Only memory can fail.
pub fn compile(alloc: Global, advisory: &Record) -> Result<List<CompiledRange>, Memory>
    ensures { IfOk result (λ forms. AreFormsOf advisory.now forms) }
{
    let mut forms = Vec::new(alloc);
    for entry in advisory.affected.as_slice() {
        push_entry(alloc, &mut forms, entry)?;
    }
    forms.shrink_to_fit();
    Ok(List::from_vec(forms))
}

fn push_entry(alloc: Global, forms: &mut Vec<CompiledRange>, entry: &Affected) -> Result<(), Memory>
    ensures { (before : List Ranged) → AllZip IsFormIn before forms.old.items → OnOk result (AllZip IsFormIn (before ++ with_package entry.now.«package» entry.now.ranges) forms.new.items) }
{
    for range in entry.ranges.as_slice() {
        forms.push(form_of(alloc, &entry.package, range)?)?;
    }
    Ok(())
}

fn form_of(
    alloc: Global,
    package: &Option<PackageKey>,
    range: &Range,
) -> Result<CompiledRange, Memory>
    ensures { IfOk result (λ form. IsFormIn («package».now, range.now) form) }
{
    match package {
        Some(key) => CompiledRange::of(alloc, key.ecosystem.as_str(), range),
        None => Ok(CompiledRange::Nothing),
    }
}
