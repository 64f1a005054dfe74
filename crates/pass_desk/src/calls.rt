// What callers do to a book under a lock, each in one turn.
ghost use Rattle.std.specs.Prelude.{◌≡◌, ◌≤◌, length, vec_len, vec_capacity};
ghost use Rattle.std.specs.Arc.{arc_value};
ghost use Rattle.book_model.specs.Conditions.{MayCall, MayGrow, MayPull, MayFinish, MayGiveBack};
ghost use Rattle.book_model.specs.Steps.{Enrols, CountsImports, Imports, ShowsRepo, Grows, Looks, Pulls, Takes, Finishes, GivesBack};
ghost use Rattle.snapshot.specs.Jobs.{name, outcome, IsJob, IsDone};
ghost use Rattle.snapshot.specs.Snapshots.{StandsFor};
ghost use Rattle.pass_desk.specs.Turns.{AreSound, IsStep};
ghost use Rattle.pass_desk.specs.Lasting.{call_lasts, grow_lasts, pull_lasts, finish_lasts, give_back_lasts};

use crate::boxed_book::BoxedBook;
use book::Gone;
use book_desk::{
    CallersSpent, GrowFault, ImportFault, Kept, Newest, Progress, Pulled, Strange, Taken,
};
use commit_graph::Graph;
use osv_prim::{Memory, RepoKey};
use osv_record::Record;
use snapshot::{Finished, Job};
use std::sync::Arc;
use turn_lock::Call;

/// Takes the next caller number.
#[derive(Drop)]
pub struct Enrol;

impl Call<BoxedBook> for Enrol {
    type Answer = Result<u64, CallersSpent>;

    ghost needs = { λ c by h n. Unit {0} };

    ghost does = { λ c by s a t. Enrols s a t × AreSound s t };

    fn act(self, by: u64, state: &mut BoxedBook) -> Result<u64, CallersSpent> {
        let _by = by;
        let _found = state.book.point();
        let answer = state.book.enrol();
        let _left = state.book.point();
        answer
    }

    ghost lasts = { λ c by xs ys n m h p le. tt };
}

/// Counts the imports.
#[derive(Drop)]
pub struct CountImports;

impl Call<BoxedBook> for CountImports {
    type Answer = u64;

    ghost needs = { λ c by h n. Unit {0} };

    ghost does = { λ c by s a t. CountsImports s a t × IsStep s t };

    fn act(self, by: u64, state: &mut BoxedBook) -> u64 {
        let _by = by;
        let _found = state.book.point();
        state.book.imports()
    }

    ghost lasts = { λ c by xs ys n m h p le. tt };
}

/// Imports an advisory.
#[derive(Drop)]
pub struct Import {
    pub advisory: Arc<Record>,
}

impl Call<BoxedBook> for Import {
    type Answer = Result<u64, ImportFault>;

    ghost needs = { λ c by h n. MayCall by h n };

    ghost does = { λ c by s a t. Imports by (arc_value c.advisory) s a t × IsStep s t };

    fn act(self, by: u64, state: &mut BoxedBook) -> Result<u64, ImportFault> {
        let _found = state.book.point();
        let answer = state.book.import(by, self.advisory);
        let _left = state.book.point();
        answer
    }

    ghost lasts = { λ c by xs ys n m h p le. call_lasts by xs ys n m h p le };
}

/// Reads how many Grows a repository has, and its graph.
#[derive(Drop)]
pub struct ShowRepo<'a> {
    pub key: &'a RepoKey,
}

impl<'a> Call<BoxedBook> for ShowRepo<'a> {
    type Answer = Result<(u64, Arc<Graph>), Memory>;

    ghost needs = { λ c by h n. Unit {0} };

    ghost does = { λ c by s a t. ShowsRepo (λ g. arc_value g) c.key.now s a t × IsStep s t };

    fn act(self, by: u64, state: &mut BoxedBook) -> Result<(u64, Arc<Graph>), Memory> {
        let _by = by;
        let _found = state.book.point();
        state.book.repo(self.key)
    }

    ghost lasts = { λ c by xs ys n m h p le. tt };
}

/// Adds rows to the graph of a repository, where it is still at its first `version` Grows.
#[derive(Drop)]
pub struct Grow {
    pub key: RepoKey,
    pub version: u64,
    pub graph: Arc<Graph>,
}

impl Call<BoxedBook> for Grow {
    type Answer = Result<u64, GrowFault>;

    ghost needs = { λ c by h n. MayGrow c.key c.version (arc_value c.graph) by h n };

    ghost does = { λ c by s a t. Grows by c.key c.version (arc_value c.graph) s a t × IsStep s t };

    fn act(self, by: u64, state: &mut BoxedBook) -> Result<u64, GrowFault> {
        let _found = state.book.point();
        let answer = state.book.grow(by, self.key, self.version, self.graph);
        let _left = state.book.point();
        answer
    }

    ghost lasts = { λ c by xs ys n m h p le. grow_lasts c.key c.version (arc_value c.graph) by xs ys n m h p le };
}

/// Finds the newest snapshot, and what each number finds. What a call writes through a reference no
/// contract of the lock could tell, so the list goes in empty, with room for each number, and comes back.
#[derive(Drop)]
pub struct Look<'a> {
    pub numbers: &'a [u64],
    pub found: Vec<Kept>,
}

impl<'a> Call<BoxedBook> for Look<'a> {
    type Answer = (Result<Newest, Memory>, Vec<Kept>);

    ghost needs = { λ c by h n. (vec_len c.found ≡ 0) × (length c.numbers.now ≤ vec_capacity c.found) };

    ghost does = { λ c by s a t. Looks (λ x p. StandsFor (arc_value x) p) c.numbers.now s a.0 a.1.items t × IsStep s t };

    fn act(self, by: u64, state: &mut BoxedBook) -> (Result<Newest, Memory>, Vec<Kept>) {
        let _by = by;
        let _found = state.book.point();
        let Look { numbers, mut found } = self;
        let newest = state.book.look(numbers, &mut found);
        (newest, found)
    }

    ghost lasts = { λ c by xs ys n m h p le. h };
}

/// Asks for a snapshot of at least the first `goal` imports, or for a job of the build that makes it.
#[derive(Drop)]
pub struct Pull {
    pub goal: u64,
}

impl Call<BoxedBook> for Pull {
    type Answer = Result<Pulled, Memory>;

    ghost needs = { λ c by h n. MayPull c.goal by h n };

    ghost does = { λ c by s a t. Pulls name IsJob by c.goal s a t × IsStep s t };

    fn act(self, by: u64, state: &mut BoxedBook) -> Result<Pulled, Memory> {
        let _found = state.book.point();
        let answer = state.book.pull(by, self.goal);
        let _left = state.book.point();
        answer
    }

    ghost lasts = { λ c by xs ys n m h p le. pull_lasts c.goal by xs ys n m h p le };
}

/// Asks for a job of the build that is open.
#[derive(Drop)]
pub struct Take;

impl Call<BoxedBook> for Take {
    type Answer = Result<Taken, Memory>;

    ghost needs = { λ c by h n. MayCall by h n };

    ghost does = { λ c by s a t. Takes name IsJob by s a t × IsStep s t };

    fn act(self, by: u64, state: &mut BoxedBook) -> Result<Taken, Memory> {
        let _found = state.book.point();
        let answer = state.book.take(by);
        let _left = state.book.point();
        answer
    }

    ghost lasts = { λ c by xs ys n m h p le. call_lasts by xs ys n m h p le };
}

/// Hands in what a job came to. What the book keeps no longer is handed out of the turn.
#[derive(Drop)]
pub struct Finish {
    pub finished: Finished,
}

impl Call<BoxedBook> for Finish {
    type Answer = (Result<Progress, Strange>, Gone);

    ghost needs = { λ c by h n. MayFinish outcome IsDone c.finished by h n };

    ghost does = { λ c by s a t. Finishes by (outcome c.finished) s a.0 t × IsStep s t };

    fn act(self, by: u64, state: &mut BoxedBook) -> (Result<Progress, Strange>, Gone) {
        let _found = state.book.point();
        let answer = state.book.finish(by, self.finished);
        let _left = state.book.point();
        answer
    }

    ghost lasts = { λ c by xs ys n m h p le. finish_lasts c.finished by xs ys n m h p le };
}

/// Hands a job back that wasn't done.
#[derive(Drop)]
pub struct GiveBack {
    pub job: Job,
}

impl Call<BoxedBook> for GiveBack {
    type Answer = Result<(), Strange>;

    ghost needs = { λ c by h n. MayGiveBack name IsJob c.job by h n };

    ghost does = { λ c by s a t. GivesBack by (name c.job) s a t × IsStep s t };

    fn act(self, by: u64, state: &mut BoxedBook) -> Result<(), Strange> {
        let _found = state.book.point();
        let answer = state.book.give_back(by, self.job);
        let _left = state.book.point();
        answer
    }

    ghost lasts = { λ c by xs ys n m h p le. give_back_lasts c.job by xs ys n m h p le };
}
