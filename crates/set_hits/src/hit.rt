ghost use Rattle.std.specs.Prelude.{◌≡◌, ◌∷◌, ◌++◌, ◌+◌, ◌&&◌, ◌||◌, ℕ, List, map, option_map};
ghost use Rattle.std.specs.Arc.{arc_value};
ghost use Rattle.std.specs.List.{AllZip, list_any};
ghost use Rattle.osv_record.specs.Advisories.{Advisory, Extent};
ghost use Rattle.evaluate.specs.Hits.{git_hit, git_entry_hit, git_range_hit, is_of_package};
ghost use Rattle.history.specs.declared.past.Past.{Past};
ghost use Rattle.history.specs.Prefixes.{graphs};
ghost use Rattle.history.specs.Pieces.{GitRange, ranges_of, ranges_of_entries, ranges_from};
ghost use Rattle.set_hits.specs.Places.{places_of, set_hit};
ghost use Rattle.piece_work.specs.Sets.{IsSetOf};

use crate::places::number_in;
use impact_set::ImpactSet;
use osv_prim::{PackageKey, RepoKey};
use osv_record::{Affected, Range, Record};
use std::sync::Arc;

/// Whether an advisory affects a commit, by the set of each of its GIT ranges, in their order: in some
/// entry, whose package matches the asked one where one is asked for, the set of some GIT range has the
/// commit's number in the graph of the range's repository (OSV schema 1.6, "Evaluation"). A withdrawn
/// advisory hits like any other. `places` are the repositories that have the commit.
pub fn git_hit(
    advisory: &Record,
    sets: &[Arc<ImpactSet>],
    places: &[(&RepoKey, u32)],
    asked: Option<&PackageKey>,
) -> bool
    ensures { (p : List Past) (commit : List ℕ) → map (λ x. (x.0.now, x.1)) places.now ≡ places_of (graphs p) commit
        → AllZip (IsSetOf p) (ranges_of advisory.now) (map (λ a. arc_value a) sets.now)
        → result ≡ git_hit advisory.now (graphs p) commit (option_map (λ k. k.now) asked.entry) }
{
    any_entry_hit(advisory.affected.as_slice(), sets, places, asked)
}

fn any_entry_hit(
    entries: &[Affected],
    sets: &[Arc<ImpactSet>],
    places: &[(&RepoKey, u32)],
    asked: Option<&PackageKey>,
) -> bool
    ensures { (p : List Past) (commit : List ℕ) (r : Advisory) (e : ℕ) → map (λ x. (x.0.now, x.1)) places.now ≡ places_of (graphs p) commit
        → AllZip (IsSetOf p) (ranges_of_entries r e entries.now) (map (λ a. arc_value a) sets.now)
        → result ≡ list_any (git_entry_hit (graphs p) commit (option_map (λ k. k.now) asked.entry)) entries.now }
{
    let mut own = sets;
    for entry in entries {
        let (hit, later) = any_range_hit(entry.ranges.as_slice(), own, places);
        if is_hit(hit, asked, entry) {
            return true;
        }
        own = later;
    }
    false
}

// Some GIT range of the entry hits, and the entry is of the package.
fn is_hit(hit: bool, asked: Option<&PackageKey>, entry: &Affected) -> bool
    ensures { result ≡ (is_of_package (option_map (λ k. k.now) asked.entry) entry.now.«package» && hit) }
{
    is_of_package(asked, &entry.package) && hit
}

fn is_of_package(asked: Option<&PackageKey>, key: &Option<PackageKey>) -> bool
    ensures { result ≡ is_of_package (option_map (λ k. k.now) asked.entry) key.now }
{
    match asked {
        None => true,
        Some(asked) => match key {
            Some(key) => key.matches(asked),
            None => false,
        },
    }
}

// Whether the set of some GIT range among an entry's has the commit, and the sets of later entries.
fn any_range_hit<'s>(
    ranges: &[Range],
    sets: &'s [Arc<ImpactSet>],
    places: &[(&RepoKey, u32)],
) -> (bool, &'s [Arc<ImpactSet>])
    ensures { (p : List Past) (commit : List ℕ) (r : Advisory) (e i : ℕ) (more : List GitRange) → map (λ x. (x.0.now, x.1)) places.now ≡ places_of (graphs p) commit
        → AllZip (IsSetOf p) (ranges_from r e i ranges.now ++ more) (map (λ a. arc_value a) sets.now)
        → (result.0 ≡ list_any (git_range_hit (graphs p) commit) ranges.now) × AllZip (IsSetOf p) more (map (λ a. arc_value a) result.1.now) }
{
    let mut own = sets;
    let mut any = false;
    for range in ranges {
        let (hit, later) = range_hit(range, own, places);
        any = either(any, hit);
        own = later;
    }
    (any, own)
}

fn either(a: bool, b: bool) -> bool
    ensures { result ≡ (a || b) }
{
    a || b
}

// Whether the set of a range has the commit, where it is a GIT range, and the sets of later ranges.
fn range_hit<'s>(
    range: &Range,
    sets: &'s [Arc<ImpactSet>],
    places: &[(&RepoKey, u32)],
) -> (bool, &'s [Arc<ImpactSet>])
    ensures { (p : List Past) (commit : List ℕ) (r : Advisory) (e i : ℕ) (rest : List Extent) (more : List GitRange) → map (λ x. (x.0.now, x.1)) places.now ≡ places_of (graphs p) commit
        → AllZip (IsSetOf p) (ranges_from r e i (range.now ∷ rest) ++ more) (map (λ a. arc_value a) sets.now)
        → (result.0 ≡ git_range_hit (graphs p) commit range.now) × AllZip (IsSetOf p) (ranges_from r e (i + 1) rest ++ more) (map (λ a. arc_value a) result.1.now) }
{
    match &range.repo {
        None => (false, sets),
        Some(key) => match sets.split_first() {
            None => (false, sets),
            Some((set, later)) => (set_hit(set, places, key), later),
        },
    }
}

fn set_hit(set: &ImpactSet, places: &[(&RepoKey, u32)], key: &RepoKey) -> bool
    ensures { result ≡ set_hit set.now (map (λ x. (x.0.now, x.1)) places.now) key.now }
{
    match number_in(places, key) {
        Some(number) => number < set.covers() && set.has(number),
        None => false,
    }
}
