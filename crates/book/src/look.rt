ghost use Rattle.std.specs.Prelude.{◌≡◌, ◌≤◌, length, vec_len, vec_capacity, OnOk, OnErr, IfOk, take, []};
ghost use Rattle.std.specs.Arc.{arc_value};
ghost use Rattle.book_model.specs.Steps.{Finds, FindsEach, Looks};
ghost use Rattle.snapshot.specs.Snapshots.{StandsFor};

use crate::ledger::Book;
use book_desk::{Kept, Newest};
use osv_prim::Memory;
use std::sync::Arc;

impl Book {
    // What a snapshot's number finds.
    fn find(&self, number: u64) -> Result<Kept, Memory>
        ensures { IfOk result (λ found. Finds (λ a p. StandsFor (arc_value a) p) self.now number found) }
    {
        let newest = self.counts.newest;
        let keep = self.settings.keep as u64;
        if number > newest {
            return Ok(Kept::Ahead { newest });
        }
        let oldest = (newest + 1).saturating_sub(keep);
        if number < oldest {
            return Ok(Kept::Gone { oldest });
        }
        let kept = &self.kept[(number - oldest) as usize];
        Ok(Kept::Here(Arc::try_clone(kept)?))
    }

    // What each number finds, one after another.
    fn find_each(&self, numbers: &[u64], found: &mut Vec<Kept>) -> Result<(), Memory>
        requires empty { vec_len found.old ≡ 0 }
        requires room { length numbers.now ≤ vec_capacity found.old }
        ensures { OnOk result (FindsEach (λ a p. StandsFor (arc_value a) p) self.now numbers.now found.new.items) }
    {
        for number in numbers {
            let kept = self.find(*number)?;
            found.push_reserved(kept);
        }
        Ok(())
    }

    /// The newest snapshot, and in `found` what each number finds, in their order. After want of memory
    /// `found` is empty.
    pub fn look(&self, numbers: &[u64], found: &mut Vec<Kept>) -> Result<Newest, Memory>
        requires empty { vec_len found.old ≡ 0 }
        requires room { length numbers.now ≤ vec_capacity found.old }
        ensures { Looks (λ a p. StandsFor (arc_value a) p) numbers.now self.now result found.new.items self.now }
    {
        let snapshot = match Arc::try_clone(&self.kept[self.kept.len() - 1]) {
            Ok(snapshot) => snapshot,
            Err(_) => return Err(Memory),
        };
        match self.find_each(numbers, found) {
            Ok(()) => Ok(Newest {
                number: self.counts.newest,
                snapshot,
            }),
            Err(memory) => {
                found.clear();
                Err(memory)
            }
        }
    }
}
