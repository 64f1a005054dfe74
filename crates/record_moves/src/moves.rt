ghost use Rattle.std.specs.Prelude.{◌≡◌, ◌++◌, ◌∷◌, [], ◌+◌, ◌≤◌, List, length, IfOk, OnOk};
ghost use Rattle.osv_record.specs.Advisories.{Advisory};
ghost use Rattle.record_moves.specs.Moved.{gone, IsMoved};

use osv_prim::Memory;
use std::alloc::Global;

// A place that no list has.
const GONE: u32 = u32::MAX;

/// Where the advisories of a list are in a later one, as far as it is known. The two lists are gone through
/// in their order: an advisory stays, is gone, or is added.
#[derive(Drop)]
pub struct Moves {
    /// For each place in the old list the one in the new list, or one behind its end where it is gone.
    pub moved: Vec<u32>,
    /// The places in the new list of those that the old one hasn't at a place of its own, ascending.
    pub added: Vec<u32>,
    /// How many the new list has.
    pub count: u32,
}

impl Moves {
    /// Of two lists without a member.
    pub fn new(alloc: Global) -> Moves
        ensures { IsMoved result [] [] }
    {
        Moves {
            moved: Vec::new(alloc),
            added: Vec::new(alloc),
            count: 0,
        }
    }

    /// The next advisories of the old list, so many, stay.
    pub fn keep(&mut self, count: usize) -> Result<(), Memory>
        ensures { (old new same : List Advisory) → IsMoved self.old old new → length same ≡ count → OnOk result (IsMoved self.new (old ++ same) (new ++ same)) }
    {
        for _ in 0..count {
            self.keep_one()?;
        }
        Ok(())
    }

    fn keep_one(&mut self) -> Result<(), Memory>
        ensures { (old new : List Advisory) (r : Advisory) → IsMoved self.old old new → OnOk result (IsMoved self.new (old ++ r ∷ []) (new ++ r ∷ [])) }
    {
        let place = self.count;
        let next = after(place)?;
        self.moved.push(place)?;
        self.count = next;
        Ok(())
    }

    /// The next advisory of the old list is gone.
    pub fn drop_one(&mut self) -> Result<(), Memory>
        ensures { (old new : List Advisory) (r : Advisory) → IsMoved self.old old new → OnOk result (IsMoved self.new (old ++ r ∷ []) new) }
    {
        Ok(self.moved.push(GONE)?)
    }

    /// The next advisory of the new list is added.
    pub fn add(&mut self) -> Result<(), Memory>
        ensures { (old new : List Advisory) (r : Advisory) → IsMoved self.old old new → OnOk result (IsMoved self.new old (new ++ r ∷ [])) }
    {
        let place = self.count;
        let next = after(place)?;
        self.added.push(place)?;
        self.count = next;
        Ok(())
    }
}

// No list has more.
fn after(place: u32) -> Result<u32, Memory>
    ensures next { IfOk result (λ next. next ≡ place + 1) }
    ensures low { IfOk result (λ next. next ≤ gone) }
{
    match place.checked_add(1) {
        None => Err(Memory),
        Some(next) => Ok(next),
    }
}
