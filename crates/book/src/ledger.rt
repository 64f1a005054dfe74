ghost use Rattle.std.specs.Prelude.{◌≡◌, ◌<◌, ◌≤◌, ℕ, length, IfOk, IsNone};
ghost use Rattle.std.specs.Arc.{arc_value};
ghost use Rattle.settings.specs.declared.TheConstants.{MAX_WEIGHT};
ghost use Rattle.history.specs.declared.past.Past.TheVariants.{Import};
ghost use Rattle.history.specs.Entries.{entry_weight, imports, newest, snap};
ghost use Rattle.book_model.specs.State.{State, opening, noted, published, out_count, cells_in};
ghost use Rattle.book_model.specs.Steps.{Enrols, CountsImports, Imports, Pulls, Takes};
ghost use Rattle.book_model.specs.Sound.{IsSound};
ghost use Rattle.impact_job.specs.Tables.{IsPrefixOf};
ghost use Rattle.snapshot.specs.Jobs.{name, IsJob};
ghost use Rattle.book.specs.Entries.{history_of};
ghost use Rattle.book.specs.Books.{SuitsBook};
ghost use Rattle.book.specs.Handing.{HandsOut, Opens};

use crate::build::{Open, Stage, plan_job};
use crate::entry::Entry;
use crate::prefix::prefix_over;
use crate::repos::Repo;
use book_desk::{CallersSpent, ImportFault, Pulled, Taken};
use impact_job::Prefix;
use osv_prim::{Memory, RepoKey};
use osv_record::Record;
use settings::Settings;
use snapshot::{Job, Snapshot};
use std::alloc::Global;
use std::collections::HashMap;
use std::marker::Model;
use std::sync::Arc;
use turn_lock::{Note, Noted};

/// What a book counts of its entries.
#[derive(Clone, Copy)]
pub(crate) struct Counts {
    pub(crate) imports: u64,
    /// What they weigh, in bytes.
    pub(crate) used: u64,
    /// The number of the newest snapshot.
    pub(crate) newest: u64,
    /// How many imports that is of.
    pub(crate) published: u64,
    /// How many entries come before the first import that it hasn't.
    pub(crate) after: u64,
}

/// The history of a service, with the build that is open and the snapshots that are kept. Contracts see
/// it as its state.
#[derive(Drop)]
pub struct Book {
    pub(crate) alloc: Global,
    pub(crate) settings: Settings,
    pub(crate) entries: Vec<Entry>,
    pub(crate) kept: Vec<Arc<Snapshot>>,
    pub(crate) repos: HashMap<RepoKey, Repo>,
    pub(crate) build: Option<Open>,
    pub(crate) callers: u64,
    pub(crate) note: Note,
    pub(crate) counts: Counts,
}

impl Model for Book {
    ghost use Rattle.std.specs.Prelude.{◌+◌, ◌<◌, ◌≤◌, [], IfSome, vec_len, vec_capacity};
    ghost use Rattle.book_model.specs.State.{State};
    ghost use Rattle.std.specs.HashMap.{get};
    ghost use Rattle.std.specs.Str.{bytes_eq};
    ghost use Rattle.book.specs.Entries.{history_of, AreWhole};
    ghost use Rattle.book.specs.Repos.{AreRepos};
    ghost use Rattle.book.specs.Books.{state_of, values_of, IsBook};

    ghost Value = { State };

    ghost view = { λ b. state_of b.settings (history_of b.entries.items) b.callers b.build b.note };

    ghost invariant = { λ b. IsBook b.settings (history_of b.entries.items) b.callers b.build b.note b.counts (values_of b.kept.items)
        × (b.settings.keep + 1 ≤ vec_capacity b.kept) × IfSome b.build (λ _. vec_len b.entries < vec_capacity b.entries)
        × AreRepos (history_of b.entries.items) (get bytes_eq b.repos) × AreWhole [] b.entries.items };
}

// What an advisory weighs: 64 bytes, its text, and 64 for each GIT range.
fn weight_of(advisory: &Record) -> u64
    ensures { (by : ℕ) → result ≡ entry_weight (Import by advisory.now) }
{
    64 + advisory.text.as_slice().len() as u64 + 64 * advisory.git_ranges() as u64
}

impl Book {
    /// A book with no entry and no caller; its snapshot 0 is empty. It keeps from 1 to 1,000 snapshots,
    /// and its entries may weigh at most 4,294,967,296 bytes. The other settings are of no matter to it.
    pub fn new(alloc: Global, settings: Settings) -> Result<Book, Memory>
        requires { SuitsBook settings }
        ensures { IfOk result (λ book. book ≡ opening settings) }
    {
        let mut kept = Vec::with_capacity(alloc, settings.keep as usize + 1)?;
        let empty = Arc::new(alloc, Snapshot::empty(alloc)?)?;
        kept.push_reserved(empty);
        let note = Note {
            serial: 0,
            by: 0,
            number: 0,
            owner: None,
            kind: Noted::Plain,
        };
        let counts = Counts {
            imports: 0,
            used: 0,
            newest: 0,
            published: 0,
            after: 0,
        };
        Ok(Book {
            alloc,
            settings,
            entries: Vec::new(alloc),
            kept,
            repos: HashMap::new(alloc),
            build: None,
            callers: 0,
            note,
            counts,
        })
    }

    /// How many entries there are.
    pub fn point(&self) -> u64
        ensures point { result ≡ length self.now.history }
        ensures sound { IsSound self.now }
        ensures limit { self.now.settings.weight ≤ MAX_WEIGHT }
    {
        self.entries.len() as u64
    }

    /// The entries, in their order.
    pub fn entries(&self) -> &[Entry]
        ensures { history_of result.now ≡ self.now.history }
    {
        self.entries.as_slice()
    }

    /// The last answer that the history doesn't show.
    pub fn note(&self) -> Note
        ensures note { result ≡ self.now.note }
        ensures sound { IsSound self.now }
    {
        self.note
    }

    /// How many caller numbers were given.
    pub fn callers(&self) -> u64
        ensures { result ≡ self.now.callers }
    {
        self.callers
    }

    /// How many imports there are.
    pub fn imports(&self) -> u64
        ensures { CountsImports self.now result self.now }
    {
        self.counts.imports
    }

    // The note of an answer that the history doesn't show.
    pub(crate) fn set_note(&mut self, kind: Noted, by: u64, number: u64, owner: Option<u64>)
        ensures { self.new ≡ noted self.old kind by number owner }
    {
        self.note = Note {
            serial: self.note.serial.saturating_add(1),
            by,
            number,
            owner,
            kind,
        };
    }

    /// The next caller number, from 0. None is left after 2^63 of them.
    pub fn enrol(&mut self) -> Result<u64, CallersSpent>
        ensures { Enrols self.old result self.new }
    {
        if self.callers >= 1 << 63 {
            self.set_note(Noted::CallersSpent, 0, 1 << 63, None);
            return Err(CallersSpent);
        }
        let number = self.callers;
        self.callers += 1;
        Ok(number)
    }

    /// Adds an import at the end, and gives its place, from 0. The weight is tested before memory is
    /// taken.
    pub fn import(&mut self, by: u64, advisory: Arc<Record>) -> Result<u64, ImportFault>
        requires { by < self.old.callers }
        ensures { Imports by (arc_value advisory) self.old result self.new }
    {
        let used = self.counts.used;
        let limit = self.settings.weight;
        let weight = weight_of(&advisory);
        if limit - used < weight {
            return Err(ImportFault::JournalFull { used, limit });
        }
        // One more than it needs: the room for the publication of a build that is open.
        let Ok(()) = self.entries.reserve(2) else {
            return Err(ImportFault::Memory);
        };
        let place = self.entries.len() as u64;
        self.entries.push_reserved(Entry::Import { by, advisory });
        self.counts.imports += 1;
        self.counts.used = used + weight;
        Ok(place)
    }

    // How many jobs of the build are out.
    fn out(&self) -> u64
        ensures { result ≡ out_count (cells_in self.now.build) }
    {
        match &self.build {
            Some(open) => open.out(),
            None => 0,
        }
    }

    // All imports, over those of the newest snapshot.
    fn prefix(&self) -> Result<Prefix, Memory>
        ensures { IfOk result (λ x. IsPrefixOf x (snap self.now.history (newest self.now.history)) (imports self.now.history)) }
    {
        let base = &self.kept[self.kept.len() - 1];
        let later = &self.entries[self.counts.after as usize..];
        let prefix = prefix_over(self.alloc, base, later)?;
        Ok(prefix)
    }

    // Opens a build over all imports, and gives its first job to the caller.
    fn open(&mut self, by: u64) -> Result<Job, Memory>
        requires given { by < self.old.callers }
        requires none { IsNone self.old.build }
        requires more { published self.old.history < length (imports self.old.history) }
        ensures { Opens by self.old result self.new }
    {
        let prefix = self.prefix()?;
        let shared = Arc::new(self.alloc, prefix)?;
        let job = plan_job(self.counts.newest + 1, &shared)?;
        self.entries.reserve(1)?;
        let place = self.entries.len() as u64;
        self.build = Some(Open {
            upto: self.counts.imports,
            place,
            stage: Stage::Plan(shared),
            owner: Some(by),
        });
        Ok(job)
    }

    // Gives the first free job of the build that is open to the caller, where one is free.
    fn hand_out(&mut self, by: u64) -> Result<Option<Job>, Memory>
        requires given { by < self.old.callers }
        ensures { HandsOut by self.old result self.new }
    {
        let Some(mut open) = self.build.take() else {
            return Ok(None);
        };
        let base = &self.kept[self.kept.len() - 1];
        let handed = open.hand_out(self.alloc, base, self.counts.newest + 1, by);
        self.build = Some(open);
        handed
    }

    /// Asks for a snapshot of at least the first `goal` imports: its number where it is there; else a job
    /// of the build that makes it, which is opened where none is; else how many jobs are out.
    pub fn pull(&mut self, by: u64, goal: u64) -> Result<Pulled, Memory>
        requires given { by < self.old.callers }
        requires goal { goal ≤ length (imports self.old.history) }
        ensures { Pulls name IsJob by goal self.old result self.new }
    {
        if goal <= self.counts.published {
            return Ok(Pulled::Reached {
                snapshot: self.counts.newest,
                upto: self.counts.published,
            });
        }
        if self.build.is_none() {
            return match self.open(by) {
                Ok(job) => Ok(Pulled::Job(job)),
                Err(memory) => Err(memory),
            };
        }
        let out = self.out();
        match self.hand_out(by) {
            Err(memory) => Err(memory),
            Ok(Some(job)) => Ok(Pulled::Job(job)),
            Ok(None) => {
                self.set_note(Noted::Out, by, out, None);
                Ok(Pulled::Out { out })
            }
        }
    }

    /// Asks for a job of the build that is open.
    pub fn take(&mut self, by: u64) -> Result<Taken, Memory>
        requires { by < self.old.callers }
        ensures { Takes name IsJob by self.old result self.new }
    {
        let out = self.out();
        match self.hand_out(by) {
            Err(memory) => Err(memory),
            Ok(Some(job)) => Ok(Taken::Job(job)),
            Ok(None) => {
                self.set_note(Noted::Nothing, by, out, None);
                Ok(Taken::Nothing { out })
            }
        }
    }
}
