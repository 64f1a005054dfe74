ghost use Rattle.std.specs.Prelude.{◌≡◌, ◌+◌, ◌<◌, ◌≤◌, ℕ, List, All, IfOk, None, true, filter, if◌then◌else◌, is_some, length, map, option_map, slice_index_or};
ghost use Rattle.std.specs.Arc.{arc_value};
ghost use Rattle.std.specs.List.{AllZip};
ghost use Rattle.osv_record.specs.Advisories.{Advisory};
ghost use Rattle.history.specs.declared.past.Past.{Past};
ghost use Rattle.history.specs.Prefixes.{graphs, records};
ghost use Rattle.impact_job.specs.Tables.{AreSetsOf};
ghost use Rattle.record_moves.specs.Moved.{IsMoved};
ghost use Rattle.repo_index.specs.Index.{IsIndexOf};
ghost use Rattle.set_hits.specs.Places.{places_of};
ghost use Rattle.snapshot.specs.Subjects.{is_commit_hit};
ghost use Rattle.snapshot.specs.Pages.{cut, found_seen};

use crate::packages::{INDEXES, advisory_at};
use crate::page::Found;
use impact_set::ImpactSet;
use osv_prim::{Ledger, List, Memory, PackageKey, RepoKey, Steps};
use osv_record::Record;
use record_moves::Moves;
use repo_index::{RepoIndex, sets_at};
use set_hits::git_hit;
use std::alloc::Global;
use std::sync::Arc;

/// The sets of GIT ranges under each repository, from the index of the list before and where its advisories are
/// in this one. It is refused, as for want of memory, where there are 2^32 advisories.
pub(crate) fn renewed_repos(
    alloc: Global,
    advisories: &[Arc<Record>],
    base: &RepoIndex,
    moves: &Moves,
    sets: &[List<Arc<ImpactSet>>],
) -> Result<RepoIndex, Memory>
    ensures { (b p : List Past) → IsIndexOf base.now b → IsMoved moves.now (records b) (records p) → map (λ a. arc_value a) advisories.now ≡ records p → AllZip (AreSetsOf p) (records p) sets.now → IfOk result (λ index. IsIndexOf index p) }
{
    if advisories.len() >= INDEXES {
        return Err(Memory);
    }
    base.renew(alloc, advisories, moves, sets)
}

/// How many advisories that affect a commit are to be looked at, of so many in all: one more than a page has
/// where each of them is a hit, and else, where a package is asked for, all.
pub(crate) fn most_of(asked: Option<&PackageKey>, size: u32, count: usize) -> usize
    ensures { result ≡ (if is_some asked.entry then count else size + 1) }
{
    match asked {
        None => size as usize + 1,
        Some(_) => count,
    }
}

/// The first `size` hits of a commit among the advisories at these indexes, which all affect it, of which one
/// that isn't there is passed over: in entries of a package, where one is asked for, by the sets of each.
/// `places` are the repositories that have the commit. It looks no further than the first hit behind them, and
/// takes no step through a graph.
pub(crate) fn first_commit_hits<'a, L: Ledger>(
    alloc: Global,
    records: &'a [Arc<Record>],
    sets: &[List<Arc<ImpactSet>>],
    indexes: &[u32],
    places: &[(&RepoKey, u32)],
    asked: Option<&PackageKey>,
    size: u32,
    steps: &mut Steps<L>,
) -> Result<Found<'a>, Memory>
    ensures page { (p : List Past) (commit : List ℕ) (none : Advisory) → map (λ x. (x.0.now, x.1)) places.now ≡ places_of (graphs p) commit → AllZip (AreSetsOf p) (map (λ a. arc_value a) records.now) sets.now → All (λ i. i < length records.now) indexes.now
        → All (λ i. is_commit_hit (graphs p) commit None (slice_index_or (map (λ a. arc_value a) records.now) i none) ≡ true) indexes.now
        → IfOk result (λ found. found_seen found ≡ cut size (filter (is_commit_hit (graphs p) commit (option_map (λ k. k.now) asked.entry)) (map (λ i. slice_index_or (map (λ a. arc_value a) records.now) i none) indexes.now))) }
    ensures graph { steps.new.graph ≡ steps.old.graph }
    ensures records { steps.new.record_count ≤ steps.old.record_count + length indexes.now }
{
    let mut found = Vec::with_capacity(alloc, indexes.len().min(size as usize))?;
    for index in indexes {
        let Some(advisory) = advisory_at(records, *index) else {
            continue;
        };
        let own = sets_at(sets, *index);
        if !is_commit_hit(advisory, own, places, asked, steps) {
            continue;
        }
        if found.len() >= size as usize {
            return Ok(Found {
                hits: found,
                more: true,
            });
        }
        found.push(advisory)?;
    }
    Ok(Found {
        hits: found,
        more: false,
    })
}

// Whether an advisory that affects the commit does so in an entry of the package, where one is asked for. It
// counts as one read of it.
fn is_commit_hit<L: Ledger>(
    advisory: &Record,
    sets: &[Arc<ImpactSet>],
    places: &[(&RepoKey, u32)],
    asked: Option<&PackageKey>,
    steps: &mut Steps<L>,
) -> bool
    ensures hit { (p : List Past) (commit : List ℕ) → map (λ x. (x.0.now, x.1)) places.now ≡ places_of (graphs p) commit → AreSetsOf p advisory.now sets.now → is_commit_hit (graphs p) commit None advisory.now ≡ true
        → result ≡ is_commit_hit (graphs p) commit (option_map (λ k. k.now) asked.entry) advisory.now }
    ensures graph { steps.new.graph ≡ steps.old.graph }
    ensures records { steps.new.record_count ≡ steps.old.record_count + 1 }
{
    steps.record_tick();
    match asked {
        None => true,
        Some(_) => git_hit(advisory, sets, places, asked),
    }
}
