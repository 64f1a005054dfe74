// A caller that takes its steps at random, and what it is told.
ghost use Rattle.std.specs.Prelude.{◌≡◌};

use crate::entries::Told;
use crate::random::Random;
use crate::replay::digest;
use book_desk::{Desk, Kept, Progress, Pulled};
use desk_calls::{count_of, find_all, finish_of, give_back_of, pull_of};
use gate::OpenGate;
use osv_prim::{Ledger, Memory, Steps};
use osv_record::Record;
use snapshot::do_job;
use std::alloc::Global;
use std::sync::Arc;

/// A snapshot that a caller looked at: its number and its digest.
#[derive(Clone, Copy, Debug)]
pub struct Looked {
    pub number: u64,
    pub digest: u64,
}

/// What a caller was told.
#[derive(Drop)]
pub struct Log {
    pub me: u64,
    /// The entries of its own, in their order.
    pub told: Vec<Told>,
    pub looks: Vec<Looked>,
    /// Whether some answer was none that may come.
    pub is_lost: bool,
    newest: u64,
    random: Random,
}

const RANGES: &str = concat!(
    r#"{"type":"GIT","repo":"https://e.example/r","events":[{"introduced":"0"}]},"#,
    r#"{"type":"GIT","repo":"https://e.example/s","events":[{"introduced":"0"}]}"#,
);

// An advisory of one of 60 ids, each of which has four texts. One in four ids has two GIT ranges.
fn advisory(alloc: Global, id: u64, version: u64) -> Result<Arc<Record>, Memory> {
    let ranges = if id % 4 == 0 { RANGES } else { "" };
    let json = format!(in alloc;
        r#"{{"id":"X-{id}","modified":"2024-01-01T00:00:00Z","affected":[{{"package":{{"ecosystem":"npm","name":"p"}},"ranges":[{ranges}],"versions":["{version}.0.0"]}}]}}"#
    )?;
    match Record::read(alloc, json.as_bytes()) {
        Ok(advisory) => Ok(Arc::new(alloc, advisory)?),
        Err(_) => Err(Memory),
    }
}

impl Log {
    /// Of the caller with this number, before its first step.
    pub fn new(alloc: Global, me: u64, seed: u64) -> Log {
        Log {
            me,
            told: Vec::new(alloc),
            looks: Vec::new(alloc),
            is_lost: false,
            newest: 0,
            random: Random::new(seed),
        }
    }

    fn import<D: Desk>(&mut self, alloc: Global, desk: &mut D) -> Result<(), Memory> {
        let id = self.random.below(60);
        let advisory = advisory(alloc, id, self.random.below(4))?;
        match desk.import(Arc::try_clone(&advisory)?) {
            Ok(place) => self.told.push(Told::Import { place, advisory })?,
            Err(_) => self.is_lost = true,
        }
        Ok(())
    }

    // Looks at the newest snapshot, and at an earlier one, which may be gone.
    fn look<D: Desk>(&mut self, alloc: Global, desk: &mut D) -> Result<(), Memory> {
        let number = self.newest.saturating_sub(self.random.below(10));
        let found = find_all(alloc, desk, &[number])?;
        if found.newest.number < self.newest {
            self.is_lost = true;
        }
        self.newest = found.newest.number;
        self.looks.push(Looked {
            number: self.newest,
            digest: digest(&found.newest.snapshot),
        })?;
        match found.kept.first() {
            Some(Kept::Here(snapshot)) => self.looks.push(Looked {
                number,
                digest: digest(snapshot),
            })?,
            Some(Kept::Gone { oldest }) if number < *oldest => {}
            _ => self.is_lost = true,
        }
        Ok(())
    }

    // Asks for a snapshot of all imports. A job for it is done or given back.
    fn publish<D: Desk, L: Ledger>(
        &mut self,
        alloc: Global,
        desk: &mut D,
        steps: &mut Steps<L>,
    ) -> Result<(), Memory> {
        let goal = count_of(desk);
        let Pulled::Job(job) = pull_of(desk, goal)? else {
            return Ok(());
        };
        if self.random.below(4) == 0 {
            if give_back_of(desk, job).is_err() {
                self.is_lost = true;
            }
            return Ok(());
        }
        let Ok(finished) = do_job(alloc, job, &OpenGate, steps) else {
            return Err(Memory);
        };
        match finish_of(desk, finished) {
            Ok(Progress::Going) => {}
            Ok(Progress::Published { entry, snapshot }) => {
                self.told.push(Told::Publish {
                    place: entry,
                    snapshot,
                })?
            }
            Err(_) => self.is_lost = true,
        }
        Ok(())
    }

    /// One step at a desk.
    pub fn step<D: Desk, L: Ledger>(
        &mut self,
        alloc: Global,
        desk: &mut D,
        steps: &mut Steps<L>,
    ) -> Result<(), Memory> {
        match self.random.below(16) {
            0..=2 => self.import(alloc, desk),
            3..=9 => self.look(alloc, desk),
            _ => self.publish(alloc, desk, steps),
        }
    }
}
