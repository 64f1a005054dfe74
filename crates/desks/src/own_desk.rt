ghost use Rattle.std.specs.Prelude.{◌≡◌, ◌<◌, ◌≤◌, ℕ, length, None, IfOk, vec_len, vec_capacity};
ghost use Rattle.turn_lock.specs.History.{saturating_next};
ghost use Rattle.history.specs.Entries.{imports};
ghost use Rattle.book_model.specs.State.{first_note};
ghost use Rattle.book_model.specs.Jobs.{JobHolds, FinishedHolds};
ghost use Rattle.book_model.specs.Sound.{IsSound};
ghost use Rattle.book_model.specs.Desk.{turned};
ghost use Rattle.snapshot.specs.Jobs.{name, IsJob, outcome, IsDone};
ghost use Rattle.book.specs.Books.{SuitsBook};
ghost use Rattle.desks.specs.Alone.{alone_with, new_caller};

use book::Book;
use book_desk::{Desk, GrowFault, ImportFault, Kept, Newest, Progress, Pulled, Strange, Taken};
use commit_graph::Graph;
use osv_prim::{Memory, RepoKey};
use osv_record::Record;
use settings::Settings;
use snapshot::{Finished, Job};
use std::alloc::Global;
use std::sync::Arc;
use turn_lock::{Last, Note};

/// The desk of a caller with a book of its own. Nothing waits there, and nobody comes between.
#[derive(Drop)]
pub struct OwnDesk {
    book: Book,
    busy: u64,
    turns: u64,
    outs: u64,
    last: Last,
    ghost enrolled: { 0 < book.callers },
}

impl OwnDesk {
    /// A desk over a book with no entry, in which its caller has the number 0. Of the settings it asks what
    /// the book does.
    pub fn new(alloc: Global, settings: Settings) -> Result<OwnDesk, Memory>
        requires { SuitsBook settings }
        ensures { IfOk result (λ d. alone_with d.book d.busy d.turns d.outs d.last ≡ new_caller settings) }
    {
        let mut book = Book::new(alloc, settings)?;
        let Ok(_) = book.enrol() else { unreachable!() };
        let note = book.note();
        let last = Last {
            turned: 0,
            found: note,
            left: note,
        };
        Ok(OwnDesk {
            book,
            busy: 0,
            turns: 0,
            outs: 0,
            last,
        })
    }

    // A call that found this note is over.
    fn turn(&mut self, found: Note)
        ensures last { self.new.last ≡ turned self.old.last found self.old.book.note }
        ensures book { self.new.book ≡ self.old.book }
        ensures busy { self.new.busy ≡ self.old.busy }
        ensures turns { self.new.turns ≡ self.old.turns }
        ensures outs { self.new.outs ≡ self.old.outs }
        ensures sound { IsSound self.old.book }
    {
        let left = self.book.note();
        self.last = Last {
            turned: self.last.turned.saturating_add(1),
            found,
            left,
        };
    }
}

impl Desk for OwnDesk {
    ghost use Rattle.desks.specs.Alone.{alone_with};

    ghost caller = { λ d. alone_with d.book d.busy d.turns d.outs d.last };

    fn me(&self) -> u64 {
        0
    }

    fn point(&self) -> u64 {
        self.book.point()
    }

    fn imports(&mut self) -> u64 {
        let found = self.book.note();
        let count = self.book.imports();
        self.turn(found);
        count
    }

    fn import(&mut self, advisory: Arc<Record>) -> Result<u64, ImportFault> {
        let found = self.book.note();
        let answer = self.book.import(0, advisory);
        self.turn(found);
        answer
    }

    fn repo(&mut self, key: &RepoKey) -> Result<(u64, Arc<Graph>), Memory> {
        let found = self.book.note();
        let answer = self.book.repo(key);
        self.turn(found);
        answer
    }

    fn grow(&mut self, key: RepoKey, version: u64, graph: Arc<Graph>) -> Result<u64, GrowFault> {
        let found = self.book.note();
        let answer = self.book.grow(0, key, version, graph);
        self.turn(found);
        if let Err(GrowFault::RepoMoved { .. }) = &answer {
            self.busy = self.busy.saturating_add(1);
        }
        answer
    }

    fn look(&mut self, numbers: &[u64], kept: &mut Vec<Kept>) -> Result<Newest, Memory> {
        let found = self.book.note();
        let answer = self.book.look(numbers, kept);
        self.turn(found);
        answer
    }

    fn pull(&mut self, goal: u64) -> Result<Pulled, Memory> {
        let found = self.book.note();
        let answer = self.book.pull(0, goal);
        self.turn(found);
        if let Ok(Pulled::Out { out }) = &answer {
            self.busy = self.busy.saturating_add(1);
            self.outs = self.outs.saturating_add(*out);
        }
        answer
    }

    fn take(&mut self) -> Result<Taken, Memory> {
        let found = self.book.note();
        let answer = self.book.take(0);
        self.turn(found);
        answer
    }

    fn finish(&mut self, finished: Finished) -> Result<Progress, Strange> {
        let found = self.book.note();
        let answer = self.book.finish(0, finished).0;
        self.turn(found);
        self.turns = self.turns.saturating_add(1);
        answer
    }

    fn give_back(&mut self, job: Job) -> Result<(), Strange> {
        let found = self.book.note();
        let answer = self.book.give_back(0, job);
        self.turn(found);
        answer
    }
}
