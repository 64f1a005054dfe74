ghost use Rattle.std.specs.Prelude.{◌≡◌, ◌+◌, IfOk, IfErr};
ghost use Rattle.book_model.specs.State.{State};
ghost use Rattle.book_model.specs.Desk.{IsEvent};
ghost use Rattle.pass_desk.specs.Turns.{IsStep};
ghost use Rattle.pass_desk.specs.Passes.{HasEntered, IsRefused, HasLeft};

use crate::boxed_book::{BookLock, BookPass, BoxedBook};
use crate::calls::{
    CountImports, Enrol, Finish, GiveBack, Grow, Import, Look, Pull, ShowRepo, Take,
};
use book::Gone;
use book_desk::{
    CallersSpent, Desk, GrowFault, ImportFault, Kept, Newest, Progress, Pulled, Strange, Taken,
};
use commit_graph::Graph;
use osv_prim::{Memory, RepoKey};
use osv_record::Record;
use snapshot::{Finished, Job};
use std::marker::Model;
use std::mem;
use std::sync::{Arc, Wait};
use turn_lock::Call;

/// The desk of a caller that shares a book. Each of its calls waits for a turn of the lock, and others'
/// turns come between.
#[derive(Drop)]
pub struct PassDesk<'a, R: Wait> {
    rt: &'a R,
    lock: &'a BookLock,
    pass: BookPass,
    me: u64,
    busy: u64,
    turns: u64,
    outs: u64,
}

impl<'a, R: Wait> Model for PassDesk<'a, R> {
    ghost use Rattle.std.specs.Prelude.{◌≡◌, Some};
    ghost use Rattle.book_model.specs.Desk.{Caller};
    ghost use Rattle.pass_desk.specs.Passes.{caller_of, KnowsSound};

    ghost Value = { Caller };

    ghost view = { λ d. caller_of d.me d.busy d.turns d.outs d.pass };

    ghost invariant = { λ d. (d.pass.lock ≡ d.lock.now) × (d.pass.number ≡ Some d.me) × KnowsSound d.pass };
}

impl<'a, R: Wait> PassDesk<'a, R> {
    /// A desk under a caller number of its own. Where none is left, the pass comes back, having turned.
    pub fn enter(
        rt: &'a R,
        lock: &'a BookLock,
        pass: BookPass,
    ) -> Result<PassDesk<'a, R>, (BookPass, CallersSpent)>
        requires { pass.lock ≡ lock.now }
        ensures ok { IfOk result (λ d. HasEntered pass d) }
        ensures err { IfErr result (λ e. IsRefused pass e.0) }
    {
        let mut pass = pass;
        match lock.turn_mut(rt, &mut pass, 0, Enrol) {
            Ok(me) => Ok(PassDesk {
                rt,
                lock,
                pass,
                me,
                busy: 0,
                turns: 0,
                outs: 0,
            }),
            Err(spent) => Err((pass, spent)),
        }
    }

    /// The pass, which has seen what the desk has.
    pub fn leave(self) -> BookPass
        ensures { HasLeft self.entry result }
    {
        self.pass
    }

    // Makes one call in one turn.
    fn act<C: Call<BoxedBook>>(&mut self, call: C) -> C::Answer
        requires needs { C.needs call self.old.me self.old.front (self.old.me + 1) }
        requires step { (s t : State) (a : C.Answer) → C.does call self.old.me s a t → IsStep s t }
        ensures acts { IsEvent (λ s t. C.does call self.old.me s result t) self.old self.new }
        ensures busy { self.new.busy ≡ self.old.busy }
        ensures turns { self.new.turns ≡ self.old.turns }
        ensures outs { self.new.outs ≡ self.old.outs }
    {
        self.lock.turn_mut(self.rt, &mut self.pass, self.me, call)
    }
}

// The answer of a turn. What is gone is dropped here, behind the turn, so that nobody waits for it.
fn answer_of(handed: (Result<Progress, Strange>, Gone)) -> Result<Progress, Strange>
    ensures { result ≡ handed.0 }
{
    handed.0
}

impl<'a, R: Wait> Desk for PassDesk<'a, R> {
    ghost use Rattle.book_model.specs.Desk.{Caller};

    ghost caller = { λ (c : Caller). c };

    fn me(&self) -> u64 {
        self.me
    }

    fn point(&self) -> u64 {
        self.pass.point()
    }

    fn imports(&mut self) -> u64 {
        self.act(CountImports)
    }

    fn import(&mut self, advisory: Arc<Record>) -> Result<u64, ImportFault> {
        self.act(Import { advisory })
    }

    fn repo(&mut self, key: &RepoKey) -> Result<(u64, Arc<Graph>), Memory> {
        self.act(ShowRepo { key })
    }

    fn grow(&mut self, key: RepoKey, version: u64, graph: Arc<Graph>) -> Result<u64, GrowFault> {
        let call = Grow {
            key,
            version,
            graph,
        };
        let answer = self.act(call);
        if let Err(GrowFault::RepoMoved { .. }) = &answer {
            self.busy = self.busy.saturating_add(1);
        }
        answer
    }

    fn look(&mut self, numbers: &[u64], found: &mut Vec<Kept>) -> Result<Newest, Memory> {
        let empty = Vec::new(*found.allocator());
        let list = mem::replace(found, empty);
        let call = Look {
            numbers,
            found: list,
        };
        let (newest, list) = self.act(call);
        *found = list;
        newest
    }

    fn pull(&mut self, goal: u64) -> Result<Pulled, Memory> {
        let answer = self.act(Pull { goal });
        if let Ok(Pulled::Out { out }) = &answer {
            self.busy = self.busy.saturating_add(1);
            self.outs = self.outs.saturating_add(*out);
        }
        answer
    }

    fn take(&mut self) -> Result<Taken, Memory> {
        self.act(Take)
    }

    fn finish(&mut self, finished: Finished) -> Result<Progress, Strange> {
        let handed = self.act(Finish { finished });
        self.turns = self.turns.saturating_add(1);
        answer_of(handed)
    }

    fn give_back(&mut self, job: Job) -> Result<(), Strange> {
        self.act(GiveBack { job })
    }
}
