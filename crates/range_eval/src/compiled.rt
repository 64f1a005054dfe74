ghost use Rattle.std.specs.Prelude.{◌≡◌, ◌≤◌, ◌&&◌, true, false, IfOk, length};
ghost use Rattle.std.specs.List.Sorted.{IsPartitionedBy, IsPartitionPoint, IsPermutation, IsSorted};
ghost use Rattle.osv_prim.specs.Ranges.{event_cmp, flag_from, in_range};
ghost use Rattle.range_eval.specs.Compiled.{StandsFor, greatest, is_before, limit_from, turns, turns_flag};
ghost use Rattle.range_eval.specs.Latest.{acts, introduces};

use crate::order::{acts, against, event_cmp, is_limit};
use osv_prim::{Bound, EventKind, Memory};
use std::alloc::Global;

/// A range that is made once for many versions: disjoint intervals in order, and one limit.
#[derive(Debug, Drop)]
pub struct Compiled<T> {
    // By turns the introduction that begins an interval, and the event that ends it.
    turns: Vec<(EventKind, Bound<T>)>,
    // The greatest, if there are limits.
    limit: Option<Bound<T>>,
}

impl<T: Ord + Drop> Compiled<T> {
    /// The range of these events, in any order. It takes O(n log n) comparisons and one allocation.
    pub fn build(
        alloc: Global,
        mut events: Vec<(EventKind, Bound<T>)>,
    ) -> Result<Compiled<T>, Memory>
        ensures { IfOk result (λ c. StandsFor T.cmp c events.items) }
    {
        sort(events.as_mut_slice());
        of_sorted(alloc, events)
    }

    /// Whether a version is in the range (OSV schema 1.6, "Evaluation"), by O(log n) comparisons and
    /// without memory.
    pub fn contains(&self, version: &T) -> bool
        ensures { (events : _) → StandsFor T.cmp self.now events → result ≡ in_range T.cmp version.now events }
    {
        is_before(version, &self.limit) && flag(self.turns.as_slice(), version)
    }
}

fn sort<T: Ord>(events: &mut [(EventKind, Bound<T>)])
    ensures permutation { IsPermutation events.old events.new }
    ensures sorted { IsSorted (event_cmp T.cmp) events.new }
{
    events.sort_unstable_by(|a, b| event_cmp(a, b));
}

// Whether an event of this kind turns the flag, where it acts.
fn turns_flag(flag: bool, kind: EventKind) -> bool
    ensures { result ≡ turns_flag flag kind }
{
    match kind {
        EventKind::Introduced => !flag,
        EventKind::Fixed | EventKind::LastAffected => flag,
        EventKind::Limit => false,
    }
}

fn greatest<T: Ord + Drop>(limit: Option<Bound<T>>, bound: Bound<T>) -> Bound<T>
    ensures { result ≡ greatest T.cmp limit bound }
{
    match limit {
        None => bound,
        Some(limit) => {
            if bound.cmp(&limit).is_gt() {
                bound
            } else {
                limit
            }
        }
    }
}

fn of_sorted<T: Ord + Drop>(
    alloc: Global,
    events: Vec<(EventKind, Bound<T>)>,
) -> Result<Compiled<T>, Memory>
    ensures turns { IfOk result (λ c. c.turns.items ≡ turns false events.items) }
    ensures limit { IfOk result (λ c. c.limit ≡ limit_from T.cmp None events.items) }
{
    let mut turns = Vec::with_capacity(alloc, events.len())?;
    let mut limit = None;
    let mut flag = false;
    for (kind, bound) in events {
        if is_limit(kind) {
            limit = Some(greatest(limit, bound));
        } else if turns_flag(flag, kind) {
            turns.push((kind, bound))?;
            flag = !flag;
        }
    }
    Ok(Compiled { turns, limit })
}

fn is_before<T: Ord>(version: &T, limit: &Option<Bound<T>>) -> bool
    ensures { result ≡ is_before T.cmp version.now limit.now }
{
    match limit {
        None => true,
        Some(bound) => against(version, bound).is_lt(),
    }
}

// The flag that turns in order leave.
fn flag<T: Ord>(turns: &[(EventKind, Bound<T>)], version: &T) -> bool
    ensures { IsPartitionedBy (λ e. acts T.cmp version.now e.0 e.1) turns.now → result ≡ flag_from T.cmp version.now false turns.now }
{
    let count = count_acting(turns, version);
    count > 0 && introduces(turns[count - 1].0)
}

fn count_acting<T: Ord>(turns: &[(EventKind, Bound<T>)], version: &T) -> usize
    ensures within { result ≤ length turns.now }
    ensures point { IsPartitionedBy (λ e. acts T.cmp version.now e.0 e.1) turns.now
        → IsPartitionPoint (λ e. acts T.cmp version.now e.0 e.1 ≡ true) (λ e. acts T.cmp version.now e.0 e.1 ≡ false) turns.now result }
{
    turns.partition_point(|event| acts(event, version))
}

fn introduces(kind: EventKind) -> bool
    ensures { result ≡ introduces kind }
{
    kind == EventKind::Introduced
}
