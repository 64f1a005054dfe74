// One caller of the lock.
ghost use Rattle.std.specs.Prelude.{◌≡◌, Some, IfOk, IfErr};

use crate::calls::{Add, Enrol};
use crate::journal::Journal;
use std::sync::Wait;
use turn_lock::{Pass, TurnLock};

/// A pass of the lock with a caller number.
#[derive(Drop)]
pub struct Caller<'a, R: Wait> {
    rt: &'a R,
    lock: &'a TurnLock<Journal>,
    pass: Pass<Journal>,
    me: u64,
    ghost entered: { (pass.lock ≡ lock.now) × (pass.number ≡ Some me) },
}

/// A caller with a number of its own, or the pass, where none is left.
pub fn enter<'a, R: Wait>(
    rt: &'a R,
    lock: &'a TurnLock<Journal>,
    mut pass: Pass<Journal>,
) -> Option<Caller<'a, R>>
    requires { pass.lock ≡ lock.now }
{
    let me = lock.turn_mut(rt, &mut pass, 0, Enrol)?;
    Some(Caller { rt, lock, pass, me })
}

impl<'a, R: Wait> Caller<'a, R> {
    // Adds one entry, and gives its place.
    fn add(&mut self, yields: u32) -> Option<u64> {
        self.lock
            .turn_mut(self.rt, &mut self.pass, self.me, Add { yields })
    }

    /// Adds so many entries, a turn each, and says whether each was told a later place than the one before, which was
    /// then the last that its pass had seen, and whether its pass counts the turns.
    pub fn add_all(&mut self, turns: u64, yields: u32) -> bool {
        let mut next = 0;
        for _ in 0..turns {
            let Some(place) = self.add(yields) else {
                return false;
            };
            if place < next {
                return false;
            }
            next = place.saturating_add(1);
            if next != self.pass.point() {
                return false;
            }
        }
        self.pass.last().turned == turns.saturating_add(1)
    }
}
