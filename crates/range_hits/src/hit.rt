ghost use Rattle.std.specs.Prelude.{◌≡◌, ℕ, List, ◌++◌, Some, length, map, take, drop};
ghost use Rattle.std.specs.List.{AllZip, list_any};
ghost use Rattle.osv_record.specs.Advisories.{Extent};
ghost use Rattle.evaluate.specs.Hits.{range_contains, version_entry_hit, version_hit};
ghost use Rattle.range_hits.specs.Forms.{AreFormsOf, IsFormIn, IsFormOf, IsReadOf, ranges_of, with_package};

use crate::asked::AskedVersion;
use crate::form::CompiledRange;
use osv_prim::PackageKey;
use osv_record::{Affected, Record};

/// Whether an advisory hits a package in a version, by the compiled forms of its ranges, by entry and range:
/// some entry's package matches it, and the version is a text of that entry's `versions` or in one of its
/// ranges of versions (OSV schema 1.6, "Evaluation"). A GIT range has no part in it, and a withdrawn advisory
/// hits like any other. `keys` are the version as it reads in each order. It takes no memory.
pub fn version_hit(
    advisory: &Record,
    forms: &[CompiledRange],
    asked: &PackageKey,
    version: &str,
    keys: &AskedVersion,
) -> bool
    ensures { AreFormsOf advisory.now forms.now → IsReadOf keys.now version.now → result ≡ version_hit advisory.now asked.now (Some version.now) }
{
    any_entry_hit(advisory.affected.as_slice(), forms, asked, version, keys)
}

fn any_entry_hit(
    entries: &[Affected],
    forms: &[CompiledRange],
    asked: &PackageKey,
    version: &str,
    keys: &AskedVersion,
) -> bool
    ensures { AllZip IsFormIn (ranges_of entries.now) forms.now → IsReadOf keys.now version.now → result ≡ list_any (version_entry_hit asked.now (Some version.now)) entries.now }
{
    let mut rest = entries;
    let mut own = forms;
    while let [entry, after @ ..] = rest {
        let (first, later) = parted(own, entry.ranges.len());
        if entry_hit(entry, first, asked, version, keys) {
            return true;
        }
        rest = after;
        own = later;
    }
    false
}

// The first so many, or all where they are fewer, and those behind them.
fn parted(forms: &[CompiledRange], count: usize) -> (&[CompiledRange], &[CompiledRange])
    ensures first { result.0.now ≡ take count forms.now }
    ensures later { result.1.now ≡ drop count forms.now }
{
    if count < forms.len() {
        forms.split_at(count)
    } else {
        (forms, &[])
    }
}

// Whether an entry hits, by the forms of its own ranges.
fn entry_hit(
    entry: &Affected,
    forms: &[CompiledRange],
    asked: &PackageKey,
    version: &str,
    keys: &AskedVersion,
) -> bool
    ensures { AllZip IsFormIn (with_package entry.now.«package» entry.now.ranges) forms.now → IsReadOf keys.now version.now → result ≡ version_entry_hit asked.now (Some version.now) entry.now }
{
    match &entry.package {
        Some(package) if package.matches(asked) => {
            entry.versions.contains(version.as_bytes()) || any_contains(forms, keys)
        }
        _ => false,
    }
}

fn any_contains(forms: &[CompiledRange], keys: &AskedVersion) -> bool
    ensures { (ecosystem version : List ℕ) (extents : List Extent) → AllZip (IsFormOf ecosystem) extents forms.now → IsReadOf keys.now version → result ≡ list_any (range_contains ecosystem version) extents }
{
    let mut rest = forms;
    while let [form, after @ ..] = rest {
        if form.contains(keys) {
            return true;
        }
        rest = after;
    }
    false
}
