// A value for the lock: which callers added an entry, in their order.
ghost use Rattle.std.specs.Prelude.{◌≡◌, ◌<◌, [], All, IfOk};
ghost use Rattle.tests_lock.specs.Journal.{State, Adds, Enrols};

use std::alloc::{AllocError, Global};
use std::marker::Model;
use turn_lock::{Note, Noted, Stored};

/// The callers' numbers, one for each entry.
#[derive(Drop)]
pub struct Journal {
    owners: Vec<u64>,
    callers: u64,
    note: Note,
}

impl Model for Journal {
    ghost Value = { State };

    ghost view = { λ j. record { history = j.owners.items; callers = j.callers; note = j.note } };

    ghost invariant = { λ j. All (λ (owner : _). owner < j.callers) j.owners.items };
}

impl Journal {
    /// A journal with no entry and no caller, which has room for so many entries.
    pub fn with_room(alloc: Global, room: usize) -> Result<Journal, AllocError>
        ensures { IfOk result (λ j. j.history ≡ []) }
    {
        let note = Note {
            serial: 0,
            by: 0,
            number: 0,
            owner: None,
            kind: Noted::Plain,
        };
        Ok(Journal {
            owners: Vec::with_capacity(alloc, room)?,
            callers: 0,
            note,
        })
    }

    /// Adds an entry, and gives its place, from 0. None is want of memory.
    pub fn add(&mut self, by: u64) -> Option<u64>
        requires { by < self.old.callers }
        ensures { Adds by self.old result self.new }
    {
        let place = self.owners.len() as u64;
        self.owners.push(by).ok()?;
        Some(place)
    }

    /// The next caller number, from 0.
    pub fn enrol(&mut self) -> Option<u64>
        ensures { Enrols self.old result self.new }
    {
        if self.callers == u64::MAX {
            return None;
        }
        let me = self.callers;
        self.callers += 1;
        Some(me)
    }

    /// How many entries are by this caller.
    pub fn entries_by(&self, by: u64) -> usize {
        self.owners.iter().filter(|owner| **owner == by).count()
    }
}

impl Stored for Journal {
    type Entry = u64;

    type Fixed = ();

    ghost entries = { λ (j : State). j.history };

    ghost owner = { λ owner. owner };

    ghost caller_count = { λ (j : State). j.callers };

    ghost fixed = { λ (j : State). tt };

    ghost noted = { λ (j : State). j.note };

    fn length(&self) -> u64 {
        self.owners.len() as u64
    }

    fn callers(&self) -> u64 {
        self.callers
    }

    fn note(&self) -> Note {
        self.note
    }
}
