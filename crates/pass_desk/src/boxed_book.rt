// A book under a lock.
ghost use Rattle.std.specs.Prelude.{◌≡◌, ◌<◌, Some, None, All, IfOk};
ghost use Rattle.history.specs.Entries.{caller};

use book::Book;
use history::Past;
use osv_prim::Memory;
use settings::Settings;
use std::alloc::Global;
use std::marker::Model;
use turn_lock::{Note, Pass, Stored, TurnLock};

/// A book on the heap, so that a turn of its lock moves only where it is.
#[derive(Drop)]
pub struct BoxedBook {
    pub(crate) book: Box<Book>,
}

impl Model for BoxedBook {
    ghost use Rattle.book_model.specs.State.{State};

    ghost Value = { State };

    ghost view = { λ b. b.book.value };
}

impl BoxedBook {
    /// The book.
    pub fn book(&self) -> &Book
        ensures { result.now ≡ self.now }
    {
        &self.book
    }
}

impl Stored for BoxedBook {
    ghost use Rattle.book_model.specs.State.{State};
    ghost use Rattle.history.specs.Entries.{caller};

    type Entry = Past;

    type Fixed = Settings;

    ghost entries = { λ (s : State). s.history };

    ghost owner = { caller };

    ghost caller_count = { λ (s : State). s.callers };

    ghost fixed = { λ (s : State). s.settings };

    ghost noted = { λ (s : State). s.note };

    fn length(&self) -> u64 {
        self.book.length()
    }

    fn callers(&self) -> u64 {
        self.book.callers()
    }

    fn note(&self) -> Note {
        self.book.note()
    }
}

/// A book's lock.
pub type BookLock = TurnLock<BoxedBook>;

/// A pass of a book's lock.
pub type BookPass = Pass<BoxedBook>;

/// The lock over a book, and a pass that has seen its history and has no number. Only memory can fail.
///
/// Each entry has to be by a caller number that was given, as in a new book.
pub fn share(alloc: Global, book: Book) -> Result<(BookLock, BookPass), Memory>
    requires { All (λ e. caller e < book.callers) book.history }
    ensures pass { IfOk result (λ r. r.1 ≡ record { lock = r.0; seen = book.history; number = None; last = record { turned = 0; found = book.note; left = book.note } }) }
    ensures fixed { IfOk result (λ r. r.0.fixed ≡ Some book.settings) }
{
    let book = Box::new(alloc, book)?;
    Ok(TurnLock::start(alloc, BoxedBook { book })?)
}
