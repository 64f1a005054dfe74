ghost use Rattle.std.specs.Prelude.{◌≡◌, ℕ, Some, IfSome, map, option_map, slice_get, true};
ghost use Rattle.std.specs.Arc.{arc_value};
ghost use Rattle.impact_job.specs.Order.{is_at};
ghost use Rattle.id_index.specs.Found.{IsThere};

use osv_prim::Memory;
use osv_record::Record;
use record_moves::Moves;
use std::alloc::Global;
use std::sync::Arc;

// A slot without a place.
const NONE: u32 = u32::MAX;

// How many slots there are for each advisory of a new table, and that it has beside these.
const SLOTS: usize = 3;

const MORE: usize = 8;

/// Guesses at the places of ids, so that a look-up mostly goes straight to its advisory. A number of an id has two slots,
/// each for one place; what a slot says may be wrong, and an id may have none, so each guess is tested.
#[derive(Drop)]
pub(crate) struct Hints {
    slots: Vec<u32>,
}

impl Hints {
    /// The table of advisories, with twelve bytes for each. Only memory can fail.
    pub(crate) fn build(alloc: Global, records: &[Arc<Record>]) -> Result<Hints, Memory> {
        let mut hints = Hints::empty(
            alloc,
            records.len().saturating_mul(SLOTS).saturating_add(MORE),
        )?;
        for place in 0..records.len() {
            hints.put(records, place);
        }
        Ok(hints)
    }

    fn empty(alloc: Global, count: usize) -> Result<Hints, Memory> {
        let mut slots = Vec::new(alloc);
        slots.resize(count, NONE)?;
        Ok(Hints { slots })
    }

    /// The table of a later list. It reads the ids of those that were added alone, but where there are so many that it has to
    /// be larger. Only memory can fail.
    pub(crate) fn renew(
        &self,
        alloc: Global,
        records: &[Arc<Record>],
        moves: &Moves,
    ) -> Result<Hints, Memory> {
        if records.len().saturating_mul(2) > self.slots.len() {
            return Hints::build(alloc, records);
        }
        let mut slots = Vec::with_capacity(alloc, self.slots.len())?;
        for slot in self.slots.as_slice() {
            slots.push(moved(moves, *slot))?;
        }
        let mut hints = Hints { slots };
        for place in moves.added.as_slice() {
            hints.put(records, *place as usize);
        }
        Ok(hints)
    }

    // Puts a place into a slot of its id, where one is free.
    fn put(&mut self, records: &[Arc<Record>], place: usize) {
        let Some(record) = records.get(place) else {
            return;
        };
        let Ok(short) = u32::try_from(place) else {
            return;
        };
        let slot = slot_of(record.id.as_str().as_bytes(), self.slots.len());
        if self.is_free(slot) {
            self.set(slot, short);
        } else if self.is_free(slot ^ 1) {
            self.set(slot ^ 1, short);
        }
    }

    fn is_free(&self, slot: usize) -> bool {
        self.slots.as_slice().get(slot) == Some(&NONE)
    }

    fn set(&mut self, slot: usize, place: u32) {
        if let Some(free) = self.slots.as_mut_slice().get_mut(slot) {
            *free = place;
        }
    }

    /// The advisory that has an id, where a slot says its place.
    pub(crate) fn find<'a>(&self, records: &'a [Arc<Record>], id: &[u8]) -> Option<&'a Arc<Record>>
        ensures { IfSome result (λ found. IsThere id.now (map (λ a. arc_value a) records.now) (arc_value found.now)) }
    {
        let slot = slot_of(id, self.slots.len());
        match self.guessed(records, id, slot) {
            Some(found) => Some(found),
            None => self.guessed(records, id, slot ^ 1),
        }
    }

    // The advisory whose place is in a slot, where it has the id.
    fn guessed<'a>(
        &self,
        records: &'a [Arc<Record>],
        id: &[u8],
        slot: usize,
    ) -> Option<&'a Arc<Record>>
        ensures { IfSome result (λ found. IsThere id.now (map (λ a. arc_value a) records.now) (arc_value found.now)) }
    {
        match self.slots.as_slice().get(slot) {
            Some(place) => with_id(records, *place, id),
            None => None,
        }
    }
}

// The advisory at a place, where it has the id.
fn with_id<'a>(records: &'a [Arc<Record>], place: u32, id: &[u8]) -> Option<&'a Arc<Record>>
    ensures { IfSome result (λ found. IsThere id.now (map (λ a. arc_value a) records.now) (arc_value found.now)) }
{
    match advisory_at(records, place) {
        Some(found) if has_id(found, id) => Some(found),
        _ => None,
    }
}

fn advisory_at(records: &[Arc<Record>], place: u32) -> Option<&Arc<Record>>
    ensures { option_map (λ a. arc_value a.now) result ≡ slice_get (map (λ a. arc_value a) records.now) place }
{
    records.get(place as usize)
}

fn has_id(advisory: &Arc<Record>, id: &[u8]) -> bool
    ensures { result ≡ is_at id.now (arc_value advisory.now) }
{
    advisory.id.as_str().as_bytes().cmp(id).is_eq()
}

// Where a place has gone.
fn moved(moves: &Moves, place: u32) -> u32 {
    match moves.moved.as_slice().get(place as usize) {
        Some(now) if *now < moves.count => *now,
        _ => NONE,
    }
}

// The first slot of an id among so many, by the hash of Fowler, Noll and Vo.
fn slot_of(id: &[u8], count: usize) -> usize {
    let mut number: u64 = 0xcbf2_9ce4_8422_2325;
    for byte in id {
        number = (number ^ *byte as u64).wrapping_mul(0x0000_0100_0000_01b3);
    }
    let folded = number ^ (number >> 32);
    match folded.checked_rem(count as u64) {
        Some(slot) => slot as usize,
        None => 0,
    }
}
