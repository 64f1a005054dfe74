ghost use Rattle.std.specs.Prelude.{◌≡◌, ◌++◌, ◌∷◌, [], List, IfOk, IfSome, OnOk, length, map};
ghost use Rattle.std.specs.Arc.{arc_value};
ghost use Rattle.osv_record.specs.Advisories.{Advisory};
ghost use Rattle.form_index.specs.Index.{AreKept, ArePlaced, IsIn, Part, Stay};

use crate::moving::{first_from, kept_at};
use osv_prim::{List, Memory};
use osv_record::Record;
use range_hits::{CompiledRange, compile};
use std::alloc::Global;
use std::sync::Arc;

/// The places of the forms of advisories so far, and the forms that were made, which go into a part of their own.
#[derive(Drop)]
pub(crate) struct Growing {
    pub(crate) places: Vec<(u32, u32)>,
    pub(crate) forms: Vec<List<CompiledRange>>,
}

/// Those of a list, from the places of an earlier list and where its advisories are in this one. Forms that are in one
/// of the first so many parts stay there, and all others are made. It goes once over both lists.
pub(crate) fn placed(
    alloc: Global,
    records: &[Arc<Record>],
    places: &[(u32, u32)],
    moved: &[u32],
    count: u32,
) -> Result<Growing, Memory>
    ensures { (parts : List Part) (old : List Advisory) → count ≡ length parts → Stay moved.now old (map (λ a. arc_value a) records.now) → AreKept parts old places.now
        → IfOk result (λ g. ArePlaced parts g.forms.items (map (λ a. arc_value a) records.now) g.places.items) }
{
    let mut growing = Growing {
        places: Vec::with_capacity(alloc, records.len())?,
        forms: Vec::new(alloc),
    };
    let mut from = 0;
    for (place, advisory) in records.iter().enumerate() {
        from = first_from(moved, from, place, records.len());
        let kept = kept_at(places, moved, from, place, count);
        put(alloc, &mut growing, advisory, kept, count)?;
    }
    growing.forms.shrink_to_fit();
    Ok(growing)
}

// The next advisory, whose forms stay where they are known to be.
fn put(
    alloc: Global,
    growing: &mut Growing,
    advisory: &Record,
    kept: Option<(u32, u32)>,
    count: u32,
) -> Result<(), Memory>
    ensures { (parts : List Part) (before : List Advisory) → count ≡ length parts → ArePlaced parts growing.old.forms.items before growing.old.places.items → IfSome kept (IsIn parts advisory.now)
        → OnOk result (ArePlaced parts growing.new.forms.items (before ++ advisory.now ∷ []) growing.new.places.items) }
{
    match kept {
        Some(at) => Ok(growing.places.push(at)?),
        None => put_new(alloc, growing, advisory, count),
    }
}

// The next advisory, whose forms are made.
fn put_new(
    alloc: Global,
    growing: &mut Growing,
    advisory: &Record,
    count: u32,
) -> Result<(), Memory>
    ensures { (parts : List Part) (before : List Advisory) → count ≡ length parts → ArePlaced parts growing.old.forms.items before growing.old.places.items
        → OnOk result (ArePlaced parts growing.new.forms.items (before ++ advisory.now ∷ []) growing.new.places.items) }
{
    let place = number_of(growing.forms.len())?;
    growing.forms.push(compile(alloc, advisory)?)?;
    growing.places.push((count, place))?;
    Ok(())
}

/// A number of parts, or of advisories in one, in 32 bits. It is refused, as for want of memory, where there are more.
pub(crate) fn number_of(count: usize) -> Result<u32, Memory>
    ensures { IfOk result (λ number. number ≡ count) }
{
    u32::try_from(count).map_err(|_| Memory)
}
