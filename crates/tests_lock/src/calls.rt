// What a caller does with the journal, each in one turn.
ghost use Rattle.std.specs.Prelude.{◌≡◌, ◌<◌};
ghost use Rattle.tests_lock.specs.Journal.{State, Adds, Enrols, below_lasts};

use crate::journal::Journal;
use std::thread::yield_now;
use turn_lock::Call;

/// Takes the next caller number.
#[derive(Drop)]
pub struct Enrol;

impl Call<Journal> for Enrol {
    type Answer = Option<u64>;

    ghost needs = { λ c by entries count. Unit {0} };

    ghost does = { λ c by s answer t. Enrols s answer t };

    fn act(self, by: u64, state: &mut Journal) -> Option<u64> {
        let _by = by;
        state.enrol()
    }

    ghost lasts = { λ c by xs ys n m h p le. tt };
}

/// Adds an entry, after so many yields with the journal in hand.
#[derive(Drop)]
pub struct Add {
    pub yields: u32,
}

impl Call<Journal> for Add {
    type Answer = Option<u64>;

    ghost needs = { λ c by entries count. by < count };

    ghost does = { λ c by s answer t. Adds by s answer t };

    fn act(self, by: u64, state: &mut Journal) -> Option<u64> {
        for _ in 0..self.yields {
            yield_now();
        }
        state.add(by)
    }

    ghost lasts = { λ c by xs ys n m h p le. below_lasts by n m h le };
}

/// How many entries are by a caller.
#[derive(Drop)]
pub struct CountEntries {
    pub owner: u64,
}

impl Call<Journal> for CountEntries {
    type Answer = usize;

    ghost needs = { λ c by entries count. Unit {0} };

    ghost does = { λ c by s answer t. t ≡ s };

    fn act(self, by: u64, state: &mut Journal) -> usize {
        let _by = by;
        state.entries_by(self.owner)
    }

    ghost lasts = { λ c by xs ys n m h p le. tt };
}
