ghost use Rattle.std.specs.Prelude.{◌≡◌, ◌≤◌, ℕ, List, length, vec_len, vec_capacity};
ghost use Rattle.std.specs.Arc.{arc_value};
ghost use Rattle.history.specs.Entries.{imports};
ghost use Rattle.book_model.specs.Jobs.{JobHolds, FinishedHolds};
ghost use Rattle.history.specs.Conditions.{IsOfVersion};
ghost use Rattle.book_model.specs.Steps.{CountsImports, Imports, ShowsRepo, Grows, Looks, Pulls, Takes, Finishes, GivesBack};
ghost use Rattle.snapshot.specs.Jobs.{name, outcome, IsJob, IsDone};
ghost use Rattle.snapshot.specs.Snapshots.{StandsFor};
ghost use Rattle.book_model.specs.Desk.{Caller, IsEvent, IsKnown, CountsStay, CountsTurn, CountsPull, CountsGrow};

use book_model::{GrowFault, ImportFault, Progress, Strange};
use commit_graph::Graph;
use osv_prim::{Memory, RepoKey};
use osv_record::Record;
use snapshot::{Finished, Job, Snapshot};
use std::sync::Arc;

/// What `pull` answers.
pub type Pulled = book_model::Pulled<Job>;

/// What `take` answers.
pub type Taken = book_model::Taken<Job>;

/// What a snapshot's number finds.
pub type Kept = book_model::Kept<Arc<Snapshot>>;

/// The newest snapshot, with its number.
pub type Newest = book_model::Newest<Arc<Snapshot>>;

/// One caller's way to a book. Each call but `me` and `point` is one step of the book, at a history that
/// begins with what the caller knew; what the step does and which counts it raises, its two clauses say.
///
/// No call takes a counter of steps, so none can read the rows of a graph: graphs are handed out and in
/// whole, and made by the caller.
pub trait Desk {
    // what contracts know of the caller
    ghost caller: { Self → Caller };

    /// The number of the caller.
    fn me(&self) -> u64
        ensures { result ≡ (caller self.now).me };

    /// How many entries the caller knows.
    fn point(&self) -> u64
        ensures point { result ≡ length (caller self.now).front }
        ensures known { IsKnown (caller self.now) };

    /// How many imports there are.
    fn imports(&mut self) -> u64
        ensures acts { IsEvent (λ s t. CountsImports s result t) (caller self.old) (caller self.new) }
        ensures counts { CountsStay (caller self.old) (caller self.new) };

    /// Imports an advisory, and gives the place of its entry, from 0.
    fn import(&mut self, advisory: Arc<Record>) -> Result<u64, ImportFault>
        ensures acts { IsEvent (λ s t. Imports (caller self.old).me (arc_value advisory) s result t) (caller self.old) (caller self.new) }
        ensures counts { CountsStay (caller self.old) (caller self.new) };

    /// How many Grows a repository has, and its graph. Where it has none these are 0 and the graph without
    /// commits.
    fn repo(&mut self, key: &RepoKey) -> Result<(u64, Arc<Graph>), Memory>
        ensures acts { IsEvent (λ s t. ShowsRepo (λ a. arc_value a) key.now s result t) (caller self.old) (caller self.new) }
        ensures counts { CountsStay (caller self.old) (caller self.new) };

    /// Adds the rows that a graph has beyond that of a repository, and gives the place of their entry, from
    /// 0. The graph was made over the first `version` Grows of the repository: where it has another number of
    /// them, it has moved.
    fn grow(&mut self, key: RepoKey, version: u64, graph: Arc<Graph>) -> Result<u64, GrowFault>
        requires { IsOfVersion key version (arc_value graph) (caller self.old).front }
        ensures acts { IsEvent (λ s t. Grows (caller self.old).me key version (arc_value graph) s result t) (caller self.old) (caller self.new) }
        ensures counts { CountsGrow result (caller self.old) (caller self.new) };

    /// The newest snapshot, and in `found` what each number finds. After want of memory `found` is empty.
    fn look(&mut self, numbers: &[u64], found: &mut Vec<Kept>) -> Result<Newest, Memory>
        requires empty { vec_len found.old ≡ 0 }
        requires room { length numbers.now ≤ vec_capacity found.old }
        ensures acts { IsEvent (λ s t. Looks (λ a p. StandsFor (arc_value a) p) numbers.now s result found.new.items t) (caller self.old) (caller self.new) }
        ensures counts { CountsStay (caller self.old) (caller self.new) };

    /// Asks for a snapshot of at least the first `goal` imports: it is there, or here is a job to be done
    /// for it, or all jobs are out.
    fn pull(&mut self, goal: u64) -> Result<Pulled, Memory>
        requires { goal ≤ length (imports (caller self.old).front) }
        ensures acts { IsEvent (λ s t. Pulls name IsJob (caller self.old).me goal s result t) (caller self.old) (caller self.new) }
        ensures counts { CountsPull result (caller self.old) (caller self.new) };

    /// Asks for a job of the build that is open.
    fn take(&mut self) -> Result<Taken, Memory>
        ensures acts { IsEvent (λ s t. Takes name IsJob (caller self.old).me s result t) (caller self.old) (caller self.new) }
        ensures counts { CountsStay (caller self.old) (caller self.new) };

    /// Hands in what a job came to.
    fn finish(&mut self, finished: Finished) -> Result<Progress, Strange>
        requires { FinishedHolds outcome IsDone finished (caller self.old).front }
        ensures acts { IsEvent (λ s t. Finishes (caller self.old).me (outcome finished) s result t) (caller self.old) (caller self.new) }
        ensures counts { CountsTurn (caller self.old) (caller self.new) };

    /// Hands a job back that wasn't done.
    fn give_back(&mut self, job: Job) -> Result<(), Strange>
        requires { JobHolds name IsJob job (caller self.old).front }
        ensures acts { IsEvent (λ s t. GivesBack (caller self.old).me (name job) s result t) (caller self.old) (caller self.new) }
        ensures counts { CountsStay (caller self.old) (caller self.new) };
}
