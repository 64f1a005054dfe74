ghost use Rattle.std.specs.Prelude.{◌≡◌, ◌<◌, ◌≤◌, ◌++◌, ◌∷◌, [], IfOk, IfSome, Some, length, map, slice_get, slice_index_or, take};
ghost use Rattle.std.specs.Arc.{arc_value};
ghost use Rattle.form_index.specs.Index.{form_at};

use osv_prim::{List, Memory};
use range_hits::CompiledRange;
use std::alloc::Global;
use std::sync::Arc;

/// The forms of some advisories, which never change, so that many indexes share them.
pub(crate) type Part = Arc<List<List<CompiledRange>>>;

/// The forms at a place of a part, none where it isn't there.
pub(crate) fn forms_at(parts: &[Part], part: usize, place: usize) -> &[CompiledRange]
    ensures { result.now ≡ form_at (map (λ p. arc_value p) parts.now) (part, place) }
{
    match parts.get(part) {
        Some(part) => forms_in(part, place),
        None => &[],
    }
}

fn forms_in(part: &List<List<CompiledRange>>, place: usize) -> &[CompiledRange]
    ensures { result.now ≡ slice_index_or part.now place [] }
{
    match part.get(place) {
        Some(forms) => forms.as_slice(),
        None => &[],
    }
}

/// The place at an index, if it is in one of the first so many parts.
pub(crate) fn place_in(places: &[(u32, u32)], index: usize, count: u32) -> Option<(u32, u32)>
    ensures there { IfSome result (λ at. slice_get places.now index ≡ Some at) }
    ensures within { IfSome result (λ at. at.0 < count) }
{
    match place_at(places, index) {
        Some(at) if at.0 < count => Some(at),
        _ => None,
    }
}

/// The place at an index, where it is there.
pub(crate) fn place_at(places: &[(u32, u32)], index: usize) -> Option<(u32, u32)>
    ensures { result ≡ slice_get places.now index }
{
    places.get(index).copied()
}

/// How many advisories the parts have forms of.
pub(crate) fn held(parts: &[Part]) -> usize {
    let mut count: usize = 0;
    for part in parts {
        count = count.saturating_add(part.len());
    }
    count
}

/// The parts that stay where the forms of so many advisories are made anew. From the end on a part is folded into
/// the new one where it has at most twice as many as that has by then; so each part that stays has more than twice as
/// many as the next, and there are O(log n).
pub(crate) fn staying(parts: &[Part], added: usize) -> &[Part]
    ensures { result.now ≡ take (length result.now) parts.now }
{
    &parts[..count_staying(parts, added)]
}

fn count_staying(parts: &[Part], added: usize) -> usize
    ensures { result ≤ length parts.now }
{
    let mut size = added;
    for folded in 0..parts.len() {
        let count = parts.len() - folded;
        let last = parts[count - 1].len();
        if last / 2 > size {
            return count;
        }
        size = size.saturating_add(last);
    }
    0
}

/// The same parts and one more.
pub(crate) fn with_part(
    alloc: Global,
    parts: &[Part],
    last: List<List<CompiledRange>>,
) -> Result<Vec<Part>, Memory>
    ensures { IfOk result (λ all. map (λ p. arc_value p) all.items ≡ map (λ p. arc_value p) parts.now ++ last ∷ []) }
{
    let mut all = Vec::new(alloc);
    for part in parts {
        all.push(Arc::try_clone(part)?)?;
    }
    all.push(Arc::new(alloc, last)?)?;
    Ok(all)
}
