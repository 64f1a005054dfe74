ghost use Rattle.book_model.specs.State.{State};
ghost use Rattle.history.specs.Entries.{caller};

use crate::ledger::Book;
use history::Past;
use settings::Settings;
use turn_lock::{Note, Stored};

impl Stored for Book {
    type Entry = Past;

    type Fixed = Settings;

    ghost entries = { λ (s : State). s.history };

    ghost owner = { caller };

    ghost caller_count = { λ (s : State). s.callers };

    ghost fixed = { λ (s : State). s.settings };

    ghost noted = { λ (s : State). s.note };

    fn length(&self) -> u64 {
        self.entries.len() as u64
    }

    fn callers(&self) -> u64 {
        self.callers
    }

    fn note(&self) -> Note {
        self.note
    }
}
