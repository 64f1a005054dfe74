ghost use Rattle.std.specs.Prelude.{◌≡◌, ◌<◌, ◌++◌, ◌∷◌, [], Some, IsTrue, ◌↔◌, map, slice_set, vec_len, vec_capacity};
ghost use Rattle.std.specs.Arc.{arc_value};
ghost use Rattle.book_model.specs.State.{Done, filled, with_build, cells_in, noted};
ghost use Rattle.turn_lock.specs.declared.note.Noted.{Noted};
ghost use Rattle.book_model.specs.State as kinds;
ghost use Rattle.book_model.specs.Jobs.{owner, FinishedHolds, JobHolds, StandsIn};
ghost use Rattle.book_model.specs.Steps.{Finishes, GivesBack, freed};
ghost use Rattle.snapshot.specs.Snapshots.{StandsFor};
ghost use Rattle.impact_job.specs.Tables.{plan_upto};
ghost use Rattle.snapshot.specs.declared.job.Finished.TheVariants as done;
ghost use Rattle.snapshot.specs.Jobs.{only, piece, name, cell_of, IsJob, outcome, IsDone};
ghost use Rattle.book.specs.Builds.{name_of};
ghost use Rattle.book.specs.Books.{trimmed};
ghost use Rattle.book.specs.Handing.{PublishesAt};

use crate::build::{Open, Part, stage_of, with_set};
use crate::entry::Entry;
use crate::ledger::{Book, Counts};
use crate::pieces::Pieces;
use book_desk::{Progress, Strange};
use impact_job::Plan;
use impact_set::ImpactSet;
use snapshot::{Finished, Job, Place, Snapshot};
use std::sync::Arc;
use turn_lock::Noted;

fn is_by(found: Option<u64>, by: u64) -> bool
    ensures { IsTrue result ↔ (found ≡ Some by) }
{
    match found {
        Some(other) => other == by,
        None => false,
    }
}

/// What a book keeps no longer once a job was handed in: the oldest snapshot, or what the build worked on. To give
/// a large one back takes milliseconds, so whoever holds the book hands this out of his turn and drops it behind it.
#[derive(Drop)]
pub struct Gone {
    snapshot: Option<Arc<Snapshot>>,
    build: Option<Open>,
}

// Nothing is gone.
fn none() -> Gone {
    Gone {
        snapshot: None,
        build: None,
    }
}

// One more snapshot, of which at most so many are kept: the oldest goes, and comes out.
fn keep(
    kept: &mut Vec<Arc<Snapshot>>,
    snapshot: Arc<Snapshot>,
    most: usize,
) -> Option<Arc<Snapshot>>
    requires { vec_len kept.old < vec_capacity kept.old }
    ensures items { kept.new.items ≡ trimmed most (kept.old.items ++ snapshot ∷ []) }
    ensures capacity { vec_capacity kept.new ≡ vec_capacity kept.old }
{
    kept.push_reserved(snapshot);
    if most < kept.len() {
        Some(kept.remove(0))
    } else {
        None
    }
}

// The number of the build of a job, how many imports that is of, and which job of it this is.
fn part_of(job: &Job) -> (u64, u64, Part)
    ensures { name_of result.0 result.1 result.2 ≡ name job.now }
{
    match job {
        Job::Plan { build, prefix } => (*build, prefix.upto(), Part::Plan),
        Job::Piece {
            build,
            plan,
            number,
        } => (*build, plan.upto(), Part::Piece(*number)),
        Job::Assemble { build, filled, .. } => (*build, filled.upto(), Part::Assemble),
    }
}

impl Book {
    // The caller that has this job.
    fn owner_of(&self, build: u64, upto: u64, part: Part) -> Option<u64>
        ensures { result ≡ owner self.now (name_of build upto part) }
    {
        match &self.build {
            None => None,
            Some(open) => {
                if build == self.counts.newest + 1 && upto == open.upto {
                    open.owner_of(part)
                } else {
                    None
                }
            }
        }
    }

    // The plan of the build that is open was handed in: its pieces are to be done.
    fn planned(
        &mut self,
        by: u64,
        build: u64,
        upto: u64,
        plan: Arc<Plan>,
        places: Vec<Place>,
    ) -> Gone
        requires given { by < self.old.callers }
        requires out { owner self.old (only build upto kinds.Plan) ≡ Some by }
        requires named { plan_upto (arc_value plan) ≡ upto }
        requires holds { FinishedHolds outcome IsDone (done.Plan build plan places) self.old.history }
        ensures { self.new ≡ with_build self.old (Some (filled upto (map cell_of places.items))) }
    {
        let Some(open) = self.build.take() else {
            unreachable!()
        };
        self.build = Some(Open {
            upto,
            place: open.place,
            stage: stage_of(Pieces::new(plan, places)),
            owner: None,
        });
        Gone {
            snapshot: None,
            build: Some(open),
        }
    }

    // A piece of the build that is open was handed in.
    fn put(&mut self, by: u64, build: u64, upto: u64, number: u32, set: Arc<ImpactSet>)
        requires given { by < self.old.callers }
        requires out { owner self.old (piece build upto number) ≡ Some by }
        requires holds { FinishedHolds outcome IsDone (done.Piece build upto number set) self.old.history }
        ensures { self.new ≡ with_build self.old (Some (filled upto (slice_set (cells_in self.old.build) number Done))) }
    {
        let Some(open) = self.build.take() else {
            unreachable!()
        };
        self.build = Some(Open {
            upto: open.upto,
            place: open.place,
            stage: with_set(open.stage, by, number, set),
            owner: None,
        });
    }

    // The snapshot of the build that is open was handed in: it is published.
    fn publish(
        &mut self,
        by: u64,
        build: u64,
        upto: u64,
        snapshot: Arc<Snapshot>,
    ) -> (Progress, Gone)
        requires given { by < self.old.callers }
        requires out { owner self.old (only build upto kinds.Assemble) ≡ Some by }
        requires holds { StandsIn (λ base imports. StandsFor (arc_value snapshot) imports) build upto self.old.history }
        ensures { PublishesAt by upto self.old result.0 self.new }
    {
        let Some(open) = self.build.take() else {
            unreachable!()
        };
        let entry = self.entries.len() as u64;
        self.entries.push_reserved(Entry::Publish { by, upto });
        let oldest = keep(&mut self.kept, snapshot, self.settings.keep as usize);
        let newest = self.counts.newest + 1;
        self.counts = Counts {
            imports: self.counts.imports,
            used: self.counts.used,
            newest,
            published: upto,
            after: open.place,
        };
        let progress = Progress::Published {
            entry,
            snapshot: newest,
        };
        let gone = Gone {
            snapshot: oldest,
            build: Some(open),
        };
        (progress, gone)
    }

    // The answer where the job isn't out to the caller.
    fn strange(&mut self, by: u64, build: u64, owner: Option<u64>) -> Strange
        ensures answer { result ≡ record { build = build; owner = owner } }
        ensures note { self.new ≡ noted self.old Noted.Strange by build owner }
    {
        self.set_note(Noted::Strange, by, build, owner);
        Strange { build, owner }
    }

    /// Hands in what a job came to. The last job of a build publishes it; the journal and the list of
    /// snapshots have room for that, so no memory is taken. What the book keeps no longer comes out with the answer.
    pub fn finish(&mut self, by: u64, finished: Finished) -> (Result<Progress, Strange>, Gone)
        requires given { by < self.old.callers }
        requires holds { FinishedHolds outcome IsDone finished self.old.history }
        ensures { Finishes by (outcome finished) self.old result.0 self.new }
    {
        match finished {
            Finished::Plan {
                build,
                plan,
                places,
            } => {
                let upto = plan.upto();
                let found = self.owner_of(build, upto, Part::Plan);
                if !is_by(found, by) {
                    return (Err(self.strange(by, build, found)), none());
                }
                let gone = self.planned(by, build, upto, plan, places);
                (Ok(Progress::Going), gone)
            }
            Finished::Piece {
                build,
                upto,
                number,
                set,
            } => {
                let found = self.owner_of(build, upto, Part::Piece(number));
                if !is_by(found, by) {
                    return (Err(self.strange(by, build, found)), none());
                }
                self.put(by, build, upto, number, set);
                (Ok(Progress::Going), none())
            }
            Finished::Assemble { build, snapshot } => {
                let upto = snapshot.upto();
                let found = self.owner_of(build, upto, Part::Assemble);
                if !is_by(found, by) {
                    return (Err(self.strange(by, build, found)), none());
                }
                let (progress, gone) = self.publish(by, build, upto, snapshot);
                (Ok(progress), gone)
            }
        }
    }

    // A job of the build that is open is free again.
    fn free(&mut self, by: u64, build: u64, upto: u64, part: Part)
        requires { owner self.old (name_of build upto part) ≡ Some by }
        ensures { self.new ≡ with_build self.old (Some (freed (name_of build upto part) (cells_in self.old.build))) }
    {
        let Some(mut open) = self.build.take() else {
            unreachable!()
        };
        open.free(by, part);
        self.build = Some(open);
    }

    /// Hands back a job that wasn't done.
    pub fn give_back(&mut self, by: u64, job: Job) -> Result<(), Strange>
        requires given { by < self.old.callers }
        requires holds { JobHolds name IsJob job self.old.history }
        ensures { GivesBack by (name job) self.old result self.new }
    {
        let (build, upto, part) = part_of(&job);
        let found = self.owner_of(build, upto, part);
        if !is_by(found, by) {
            return Err(self.strange(by, build, found));
        }
        self.free(by, build, upto, part);
        Ok(())
    }
}
