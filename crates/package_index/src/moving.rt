ghost use Rattle.std.specs.Prelude.{◌≡◌, ◌||◌, ◌<◌, ℕ, length, IfOk, OnOk};
ghost use Rattle.std.specs.List.{list_any, zip};
ghost use Rattle.package_index.specs.Noted.{is_entry, is_moved_entry, AreGiven};

use osv_prim::Memory;
use std::alloc::Global;

/// Entries, given as keys and places side by side, at the places to which these go in a list of so many, and
/// without those that are gone. They keep their order.
pub(crate) fn moved_entries(
    alloc: Global,
    keys: &[(u32, u32)],
    places: &[u32],
    moved: &[u32],
    count: usize,
) -> Result<Vec<((u32, u32), u32)>, Memory>
    requires { length places.now ≡ length keys.now }
    ensures given { (names ecosystems : ℕ) → AreGiven names ecosystems (zip keys.now places.now) → IfOk result (λ v. AreGiven names ecosystems v.items) }
    ensures noted { IfOk result (λ v. (n m j : ℕ) → list_any (is_entry n m j) v.items ≡ list_any (is_moved_entry moved.now count n m j) (zip keys.now places.now)) }
{
    let mut entries = Vec::with_capacity(alloc, keys.len())?;
    for index in 0..keys.len() {
        put_moved(&mut entries, keys[index], places[index], moved, count)?;
    }
    Ok(entries)
}

// One entry, where it isn't gone.
fn put_moved(
    entries: &mut Vec<((u32, u32), u32)>,
    key: (u32, u32),
    place: u32,
    moved: &[u32],
    count: usize,
) -> Result<(), Memory>
    ensures given { (names ecosystems : ℕ) → AreGiven names ecosystems entries.old.items → key.0 < names → key.1 < ecosystems → OnOk result (AreGiven names ecosystems entries.new.items) }
    ensures noted { OnOk result ((n m j : ℕ) → list_any (is_entry n m j) entries.new.items ≡ (list_any (is_entry n m j) entries.old.items || is_moved_entry moved.now count n m j (key, place))) }
{
    match moved.get(place as usize) {
        Some(new) if (*new as usize) < count => Ok(entries.push((key, *new))?),
        _ => Ok(()),
    }
}
