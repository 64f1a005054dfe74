ghost use Rattle.std.specs.Prelude.{◌≡◌, [], List, IfOk, Some, map, slice_get, slice_index_or};
ghost use Rattle.std.specs.Arc.{arc_value};
ghost use Rattle.osv_record.specs.Advisories.{Advisory};
ghost use Rattle.range_hits.specs.Forms.{AreFormsOf};
ghost use Rattle.record_moves.specs.Moved.{IsMoved};
ghost use Rattle.form_index.specs.Index.{AreIndexed, AreKept, Stay};

use crate::growing::{Growing, number_of, placed};
use crate::parts::{Part, forms_at, held, place_at, staying, with_part};
use osv_prim::{List, Memory};
use osv_record::Record;
use range_hits::CompiledRange;
use record_moves::Moves;
use std::alloc::Global;
use std::marker::Model;
use std::sync::Arc;

/// The compiled forms of the ranges of advisories, by their indexes. They stand in few large parts, which the indexes
/// of later lists share, so that the next index takes 8 bytes an advisory and what is made for it. Contracts see the
/// forms of each advisory.
#[derive(Drop)]
pub struct FormIndex {
    parts: Vec<Part>,
    // For each advisory the part of its forms, and the place in it.
    places: Vec<(u32, u32)>,
}

impl Model for FormIndex {
    ghost use Rattle.std.specs.Prelude.{List, map};
    ghost use Rattle.std.specs.Arc.{arc_value};
    ghost use Rattle.range_hits.specs.declared.form.CompiledRange.{CompiledRange};
    ghost use Rattle.form_index.specs.Index.{forms_of};

    ghost Value = { List (List CompiledRange) };

    ghost view = { λ i. forms_of (map (λ p. arc_value p) i.parts.items) i.places.items };
}

impl FormIndex {
    /// The index of advisories, in one part. Each value of an event is read once. Only memory can fail.
    pub fn build(alloc: Global, records: &[Arc<Record>]) -> Result<FormIndex, Memory>
        ensures { IfOk result (λ index. AreIndexed (map (λ a. arc_value a) records.now) index) }
    {
        renewed(alloc, records, &[], &[], &[])
    }

    /// The index of a later list of advisories, from this one of an earlier list and where the advisories of that are
    /// in it. It goes once over the places, shares the large parts, and makes one of the advisories that were added
    /// and of what stays of the small parts. A part is freed when it is folded in this way; until then it keeps the
    /// forms of advisories that are gone. Where half of all were added, or the parts have twice as many as there are
    /// advisories, it is built anew. Only memory can fail.
    pub fn renew(
        &self,
        alloc: Global,
        records: &[Arc<Record>],
        moves: &Moves,
    ) -> Result<FormIndex, Memory>
        ensures { (old : List Advisory) → IsMoved moves.now old (map (λ a. arc_value a) records.now) → AreIndexed old self.now → IfOk result (λ index. AreIndexed (map (λ a. arc_value a) records.now) index) }
    {
        let added = moves.added.len();
        let parts = self.parts.as_slice();
        if added > records.len() / 2 || held(parts) / 2 > records.len() {
            return FormIndex::build(alloc, records);
        }
        let places = self.places.as_slice();
        let moved = moves.moved.as_slice();
        renewed(alloc, records, staying(parts, added), places, moved)
    }

    /// The forms of the ranges of the advisory at an index, by entry and range, which are none where it isn't there.
    pub fn of(&self, index: u32) -> &[CompiledRange]
        ensures same { result.now ≡ slice_index_or self.now index [] }
        ensures forms { (advisories : List Advisory) (r : Advisory) → AreIndexed advisories self.now → slice_get advisories index ≡ Some r → AreFormsOf r result.now }
    {
        match place_at(self.places.as_slice(), index as usize) {
            Some((part, place)) => forms_at(self.parts.as_slice(), part as usize, place as usize),
            None => &[],
        }
    }
}

// The index of a list, by these parts and one more, from the places of an earlier list and where its advisories are
// in this one. Forms that are in none of the parts are made.
fn renewed(
    alloc: Global,
    records: &[Arc<Record>],
    parts: &[Part],
    places: &[(u32, u32)],
    moved: &[u32],
) -> Result<FormIndex, Memory>
    ensures { (old : List Advisory) → Stay moved.now old (map (λ a. arc_value a) records.now) → AreKept (map (λ p. arc_value p) parts.now) old places.now → IfOk result (λ index. AreIndexed (map (λ a. arc_value a) records.now) index) }
{
    let count = number_of(parts.len())?;
    let Growing { places, forms } = placed(alloc, records, places, moved, count)?;
    let parts = with_part(alloc, parts, List::from_vec(forms))?;
    Ok(FormIndex { parts, places })
}
