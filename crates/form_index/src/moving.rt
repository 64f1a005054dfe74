ghost use Rattle.std.specs.Prelude.{◌≡◌, ◌≤◌, List, IfSome, Some, length, slice_get};
ghost use Rattle.osv_record.specs.Advisories.{Advisory};
ghost use Rattle.form_index.specs.Index.{AreKept, IsIn, Part, Stay};

use crate::parts::place_in;

/// From an index on the first whose advisory is at this place or behind it, of so many.
pub(crate) fn first_from(moved: &[u32], from: usize, place: usize, count: usize) -> usize
    ensures { from ≤ length moved.now → result ≤ length moved.now }
{
    for index in from..moved.len() {
        let now = moved[index] as usize;
        if place <= now && now < count {
            return index;
        }
    }
    moved.len()
}

/// Where the forms of the advisory at an index of the old list are, if it is at this place now, and they are in one of
/// the first so many parts.
pub(crate) fn kept_at(
    places: &[(u32, u32)],
    moved: &[u32],
    index: usize,
    place: usize,
    count: u32,
) -> Option<(u32, u32)>
    ensures { (parts : List Part) (old new : List Advisory) (r : Advisory) → count ≡ length parts → Stay moved.now old new → AreKept parts old places.now → slice_get new place ≡ Some r → IfSome result (IsIn parts r) }
{
    match moved_to(moved, index) {
        Some(now) if now as usize == place => place_in(places, index, count),
        _ => None,
    }
}

fn moved_to(moved: &[u32], index: usize) -> Option<u32>
    ensures { result ≡ slice_get moved.now index }
{
    moved.get(index).copied()
}
