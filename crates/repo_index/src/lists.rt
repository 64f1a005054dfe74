ghost use Rattle.std.specs.Prelude.{◌≡◌, ◌≤◌, ℕ, List, Some, length, option_map, slice_get, IfSome};
ghost use Rattle.std.specs.List.{AllZip};
ghost use Rattle.osv_record.specs.Advisories.{Advisory};
ghost use Rattle.history.specs.declared.past.Past.{Past};
ghost use Rattle.impact_job.specs.Tables.{AreSetsOf};
ghost use Rattle.repo_index.specs.Numbers.{AreNumbersOf, AreSame};

use impact_set::ImpactSet;
use osv_prim::List;
use std::sync::Arc;

/// The sets of the advisory at an index, or none where it isn't there.
pub fn sets_at(sets: &[List<Arc<ImpactSet>>], index: u32) -> &[Arc<ImpactSet>]
    ensures { (p : List Past) (advisories : List Advisory) (r : Advisory) → AllZip (AreSetsOf p) advisories sets.now → slice_get advisories index ≡ Some r → AreSetsOf p r result.now }
{
    match sets_of(sets, index) {
        Some(own) => own.as_slice(),
        None => &[],
    }
}

fn sets_of(sets: &[List<Arc<ImpactSet>>], index: u32) -> Option<&List<Arc<ImpactSet>>>
    ensures { option_map (λ own. own.now) result ≡ slice_get sets.now index }
{
    sets.get(index as usize)
}

/// From an index on the first whose advisory is at this place or behind it, of so many.
pub(crate) fn first_from(moved: &[u32], from: usize, place: usize, count: usize) -> usize
    ensures { from ≤ length moved.now → result ≤ length moved.now }
{
    for index in from..moved.len() {
        let now = moved[index] as usize;
        if place <= now && now < count {
            return index;
        }
    }
    moved.len()
}

/// The numbers of the advisory at an index of the old list, where it is at this place now.
pub(crate) fn kept_at<'a>(
    base: &'a [List<u32>],
    moved: &[u32],
    index: usize,
    place: usize,
) -> Option<&'a List<u32>>
    ensures { (keys : List (List ℕ)) (old new : List Advisory) (r : Advisory) → AreSame moved.now old new → AllZip (AreNumbersOf keys) old base.now → slice_get new place ≡ Some r → IfSome result (λ own. AreNumbersOf keys r own.now) }
{
    match place_at(moved, index) {
        Some(now) if now as usize == place => numbers_at(base, index),
        _ => None,
    }
}

fn place_at(moved: &[u32], index: usize) -> Option<u32>
    ensures { result ≡ slice_get moved.now index }
{
    moved.get(index).copied()
}

fn numbers_at(base: &[List<u32>], index: usize) -> Option<&List<u32>>
    ensures { option_map (λ own. own.now) result ≡ slice_get base.now index }
{
    base.get(index)
}
