ghost use Rattle.std.specs.Prelude.{◌≡◌, IfOk, option_map};
ghost use Rattle.std.specs.List.{list_any};
ghost use Rattle.std.specs.Str.{bytes_eq};
ghost use Rattle.evaluate.specs.Hits.{version_hit, version_entry_hit, affects_version, range_contains};

use osv_prim::{Memory, PackageKey, ReadVersion};
use osv_record::{Affected, Range, Record};
use std::alloc::Global;
use version_order::{Order, Version, contains};

/// Whether an advisory hits a package: some entry's package matches it, and the version, where one is
/// asked for, is a text of that entry's `versions` or in one of its ranges of versions (OSV schema
/// 1.6, "Evaluation"). A GIT range has no part in it, and a withdrawn advisory hits like any other. Only
/// want of memory is refused.
pub fn version_hit(
    alloc: Global,
    advisory: &Record,
    asked: &PackageKey,
    version: Option<&str>,
) -> Result<bool, Memory>
    ensures { IfOk result (λ b. b ≡ version_hit advisory.now asked.now (option_map (λ t. t.now) version.entry)) }
{
    let mut rest = advisory.affected.as_slice();
    while let [entry, after @ ..] = rest {
        if version_entry_hit(alloc, entry, asked, version)? {
            return Ok(true);
        }
        rest = after;
    }
    Ok(false)
}

fn version_entry_hit(
    alloc: Global,
    entry: &Affected,
    asked: &PackageKey,
    version: Option<&str>,
) -> Result<bool, Memory>
    ensures { IfOk result (λ b. b ≡ version_entry_hit asked.now (option_map (λ t. t.now) version.entry) entry.now) }
{
    match &entry.package {
        Some(package) if package.matches(asked) => {
            affects_version(alloc, package.ecosystem.as_str(), version, entry)
        }
        _ => Ok(false),
    }
}

fn affects_version(
    alloc: Global,
    ecosystem: &str,
    version: Option<&str>,
    entry: &Affected,
) -> Result<bool, Memory>
    ensures { IfOk result (λ b. b ≡ affects_version ecosystem.now (option_map (λ t. t.now) version.entry) entry.now) }
{
    let Some(text) = version else {
        return Ok(true);
    };
    if entry.versions.contains(text.as_bytes()) {
        return Ok(true);
    }
    any_contains(alloc, ecosystem, text, entry.ranges.as_slice())
}

fn any_contains(
    alloc: Global,
    ecosystem: &str,
    text: &str,
    ranges: &[Range],
) -> Result<bool, Memory>
    ensures { IfOk result (λ b. b ≡ list_any (range_contains ecosystem.now text.now) ranges.now) }
{
    let mut rest = ranges;
    while let [range, after @ ..] = rest {
        if range_contains(alloc, ecosystem, text, range)? {
            return Ok(true);
        }
        rest = after;
    }
    Ok(false)
}

fn range_contains(alloc: Global, ecosystem: &str, text: &str, range: &Range) -> Result<bool, Memory>
    ensures { IfOk result (λ b. b ≡ range_contains ecosystem.now text.now range.now) }
{
    let Some(order) = Order::of(range.kind, ecosystem) else {
        return Ok(false);
    };
    match Version::read(alloc, order, text) {
        Ok(version) => contains(alloc, order, range.events.as_slice(), &version),
        Err(ReadVersion::NotAVersion) => Ok(false),
        Err(ReadVersion::Memory) => Err(Memory),
    }
}
