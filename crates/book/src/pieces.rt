ghost use Rattle.std.specs.Prelude.{◌≡◌, ◌≤◌, List, IfOk, Some, false, map, option_map, slice_set, slice_index_or, count_by};
ghost use Rattle.std.specs.List.{list_any, list_all, position_or_len};
ghost use Rattle.std.specs.Arc.{arc_value};
ghost use Rattle.history.specs.declared.past.Past.{Past};
ghost use Rattle.impact_job.specs.Tables.{IsFilledOf, filled_upto, plan_upto};
ghost use Rattle.book_model.specs.State.{Done, is_free, is_out, is_done, holder, out_count};
ghost use Rattle.snapshot.specs.declared.job.Place.TheVariants as places;
ghost use Rattle.snapshot.specs.Jobs.{cell_of};
ghost use Rattle.book.specs.Pieces.{Placed, cells_of, is_undone, set_at, with_place, IsOutTo, ArePiecesOf, ArePiecesDone};
ghost use Rattle.book.specs.Handing.{HandsPiece};

use impact_job::{Filled, Plan};
use impact_set::ImpactSet;
use osv_prim::Memory;
use snapshot::{Job, Place};
use std::alloc::Global;
use std::marker::Model;
use std::sync::Arc;

/// The pieces of a build that is open. Contracts see them as the plan and where each of them is.
#[derive(Drop)]
pub(crate) struct Pieces {
    plan: Arc<Plan>,
    places: Vec<Place>,
    // No place below it is free.
    from: usize,
    // How many are out.
    out: usize,
    // How many are not done.
    left: usize,
}

impl Model for Pieces {
    ghost use Rattle.std.specs.Prelude.{map};
    ghost use Rattle.std.specs.Arc.{arc_value};
    ghost use Rattle.snapshot.specs.Jobs.{cell_of};
    ghost use Rattle.book.specs.Pieces.{Placed, AreCounted};

    ghost Value = { Placed };

    ghost view = { λ x. record { plan = arc_value x.plan; places = x.places.items } };

    ghost invariant = { λ x. AreCounted (map cell_of x.places.items) x.from x.out x.left };
}

fn is_free(place: &Place) -> bool
    ensures { result ≡ is_free (cell_of place.now) }
{
    match place {
        Place::Free => true,
        Place::Out { .. } => false,
        Place::Made(_) => false,
        Place::Carried => false,
    }
}

fn is_undone(place: &Place) -> bool
    ensures { result ≡ is_undone (cell_of place.now) }
{
    match place {
        Place::Free => true,
        Place::Out { .. } => true,
        Place::Made(_) => false,
        Place::Carried => false,
    }
}

fn count_undone(places: &[Place]) -> usize
    ensures { result ≡ count_by is_undone (map cell_of places.now) }
{
    let mut count = 0;
    for place in places {
        if is_undone(place) {
            count += 1;
        }
    }
    count
}

// The first place that is free, or how many there are, where none below this one is.
fn first_free(places: &[Place], from: usize) -> usize
    requires { from ≤ position_or_len is_free (map cell_of places.now) }
    ensures { result ≡ position_or_len is_free (map cell_of places.now) }
{
    for index in from..places.len() {
        if is_free(&places[index]) {
            return index;
        }
    }
    places.len()
}

// The set that a piece made, where it made one.
fn made_at(place: &Place) -> Result<Option<Arc<ImpactSet>>, Memory>
    ensures { IfOk result (λ made. option_map (λ a. arc_value a) made ≡ set_at place.now) }
{
    match place {
        Place::Free => Ok(None),
        Place::Out { .. } => Ok(None),
        Place::Made(set) => Ok(Some(Arc::try_clone(set)?)),
        Place::Carried => Ok(None),
    }
}

fn all_made(alloc: Global, places: &[Place]) -> Result<Vec<Option<Arc<ImpactSet>>>, Memory>
    ensures { IfOk result (λ made. map (λ m. option_map (λ a. arc_value a) m) made.items ≡ map set_at places.now) }
{
    let mut made = Vec::with_capacity(alloc, places.len())?;
    for place in places {
        made.push_reserved(made_at(place)?);
    }
    Ok(made)
}

impl Pieces {
    /// The pieces of a plan, which nobody has yet. They are gone through once.
    pub(crate) fn new(plan: Arc<Plan>, places: Vec<Place>) -> Pieces
        requires { list_any is_out (map cell_of places.items) ≡ false }
        ensures { result ≡ record { plan = arc_value plan; places = places.items } }
    {
        let left = count_undone(places.as_slice());
        Pieces {
            plan,
            places,
            from: 0,
            out: 0,
            left,
        }
    }

    /// Whether all are done.
    pub(crate) fn are_done(&self) -> bool
        ensures { result ≡ list_all is_done (cells_of self.now) }
    {
        self.left == 0
    }

    /// How many are out.
    pub(crate) fn out(&self) -> u64
        ensures { result ≡ out_count (cells_of self.now) }
    {
        self.out as u64
    }

    /// The caller that has the piece with this number.
    pub(crate) fn owner(&self, number: u32) -> Option<u64>
        ensures { result ≡ holder (slice_index_or (cells_of self.now) number Done) }
    {
        match self.places.get(number as usize) {
            Some(Place::Out { by }) => Some(*by),
            _ => None,
        }
    }

    /// Gives the first free piece to a caller, where one is free. It goes on from where the last call
    /// stopped. Of 2^32 pieces and more it is refused as for want of memory; entries weigh too much for
    /// so many.
    pub(crate) fn hand_out(&mut self, build: u64, by: u64) -> Result<Option<Job>, Memory>
        ensures { HandsPiece build by self.old result self.new }
    {
        let index = first_free(self.places.as_slice(), self.from);
        self.from = index;
        if index >= self.places.len() {
            return Ok(None);
        }
        let Ok(number) = u32::try_from(index) else {
            return Err(Memory);
        };
        let plan = Arc::try_clone(&self.plan)?;
        self.places[index] = Place::Out { by };
        self.out += 1;
        Ok(Some(Job::Piece {
            build,
            plan,
            number,
        }))
    }

    /// A piece that is out made this set.
    pub(crate) fn put(&mut self, by: u64, number: u32, set: Arc<ImpactSet>)
        requires { IsOutTo by number (cells_of self.old) }
        ensures { self.new ≡ with_place self.old number (places.Made set) }
    {
        self.places[number as usize] = Place::Made(set);
        self.out -= 1;
        self.left -= 1;
    }

    /// A piece that is out is free again.
    pub(crate) fn free(&mut self, by: u64, number: u32)
        requires { IsOutTo by number (cells_of self.old) }
        ensures { self.new ≡ with_place self.old number places.Free }
    {
        let index = number as usize;
        self.places[index] = Place::Free;
        self.out -= 1;
        if index < self.from {
            self.from = index;
        }
    }

    /// The plan with the sets that the pieces made. Only memory can fail.
    pub(crate) fn filled(&self, alloc: Global) -> Result<Filled, Memory>
        ensures of { (b p : List Past) → ArePiecesOf self.now b p → ArePiecesDone self.now → IfOk result (λ filled. IsFilledOf filled b p) }
        ensures upto { IfOk result (λ filled. filled_upto filled ≡ plan_upto self.now.plan) }
    {
        let made = all_made(alloc, self.places.as_slice())?;
        let plan = Arc::try_clone(&self.plan)?;
        Ok(Filled { plan, made })
    }
}
