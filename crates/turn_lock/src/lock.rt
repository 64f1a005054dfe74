// The lock, and its passes.
ghost use Rattle.std.specs.Prelude.{◌≡◌, ◌<◌, None, Some, length, IfOk, ◌⊎◌, All};
ghost use mathlib.Core.List.{IsPrefix};
ghost use Rattle.turn_lock.specs.History.{longer};
ghost use Rattle.turn_lock.specs.Turn.{known_callers, IsTurn, PassState, LockId};
ghost use Rattle.turn_lock.specs.Rule.{IsIdle};

use crate::call::Call;
use crate::note::Last;
use crate::stored::Stored;
use crate::tickets::{PassSeat, TicketTable};
use atomic_table::{Refused, Table};
use std::alloc::{AllocError, Global};
use std::marker::Model;
use std::snapshot::Snapshot;
use std::sync::Wait;

/// A value that callers act on in turns.
///
/// Turns are served in the order in which their tickets were taken, and a ticket is taken only once its turn has come. Who
/// waits for that looks again and again, then yields between its looks, and then sleeps until a turn ends; of several it is
/// any.
#[derive(Drop)]
pub struct TurnLock<B: Stored> {
    tickets: TicketTable<B>,
}

impl<B: Stored> Model for TurnLock<B> {
    ghost Value = { LockId B.Fixed };

    ghost view = { λ l. record { table = l.tickets.table.shared.table_id; fixed = Some (B.fixed l.tickets.table.shared.key.value) } };
}

/// What its holder knows of the history under a lock, between two turns. Contracts see it as its lock, the history
/// that it has seen, its caller number and its last turn.
///
/// A pass has no number at first. A turn that gives a caller number puts it into its pass.
#[derive(Drop)]
pub struct Pass<B: Stored> {
    seat: PassSeat<B>,
    last: Last,
    // The length of what it has seen.
    point: u64,
}

impl<B: Stored> Model for Pass<B> {
    ghost Value = { PassState B.Entry B.Fixed };

    ghost view = { λ p. record { lock = record { table = p.seat.table_id; fixed = p.seat.me.0.fixed }; seen = p.seat.me.0.seen; number = p.seat.me.0.number; last = p.last } };

    ghost invariant = { λ p. IsIdle p.seat.me × ((f : B.Fixed) × (p.seat.me.0.fixed ≡ Some f)) × (p.point ≡ length p.seat.me.0.seen) };
}

impl<B: Stored> Pass<B> {
    /// How many entries the pass has seen.
    pub fn point(&self) -> u64
        ensures { result ≡ length self.now.seen }
    {
        self.point
    }

    /// What the pass keeps of its turns.
    pub fn last(&self) -> Last
        ensures { result ≡ self.now.last }
    {
        self.last
    }
}

impl<B: Stored + Drop> TurnLock<B> {
    /// The lock over this value, and a pass that has seen its history and has no number. Only memory can fail.
    ///
    /// Each entry has to be by a caller number that was given.
    pub fn start(alloc: Global, state: B) -> Result<(TurnLock<B>, Pass<B>), AllocError>
        requires { All (λ e. B.owner e < B.caller_count state) (B.entries state) }
        ensures { IfOk result (λ r. (r.1 ≡ record { lock = r.0; seen = B.entries state; number = None; last = record { turned = 0; found = B.noted state; left = B.noted state } }) × (r.0.fixed ≡ Some (B.fixed state))) }
    {
        let note = state.note();
        let length = state.length();
        let callers = state.callers();
        let key = Snapshot::of(&state);
        let mut slots = Vec::with_capacity(alloc, 1)?;
        slots.push_reserved(Some(state));
        let words = [
            0, 0, 0, 0, 0, 0, 0, 0, 0, 0, 0, 0, 0, 0, 0, 0, length, callers, 0,
        ];
        match Table::new(alloc, &words, slots, &key) {
            Ok((table, seat)) => {
                let last = Last {
                    turned: 0,
                    found: note,
                    left: note,
                };
                Ok((
                    TurnLock {
                        tickets: TicketTable { table },
                    },
                    Pass {
                        seat,
                        last,
                        point: length,
                    },
                ))
            }
            Err(Refused { slots: _ }) => Err(AllocError),
        }
    }

    /// Makes one call in one turn, as the caller `by`. It waits for its turn; a lock has 2^64 - 1 of them.
    ///
    /// The pass has to be one of this lock, and `by` its number, unless the call adds no entry. What the call needs
    /// has to hold of what the pass has seen.
    pub fn turn<C: Call<B>, R: Wait>(
        &self,
        rt: &R,
        pass: Pass<B>,
        by: u64,
        call: C,
    ) -> (Pass<B>, C::Answer)
        requires lock { pass.lock ≡ self.now }
        requires by { (pass.number ≡ Some by) ⊎ ((s t : B) (a : C.Answer) → C.does call by s a t → B.entries t ≡ B.entries s) }
        requires needs { C.needs call by pass.seen (known_callers pass.number by) }
        ensures { IsTurn record { entries = B.entries; owner = B.owner; caller_count = B.caller_count; fixed = B.fixed } B.noted (λ s t. C.does call by s result.1 t) by pass result.0 }
    {
        let mut pass = pass;
        let answer = self.turn_mut(rt, &mut pass, by, call);
        (pass, answer)
    }

    /// The same for a pass that is lent.
    pub fn turn_mut<C: Call<B>, R: Wait>(
        &self,
        rt: &R,
        pass: &mut Pass<B>,
        by: u64,
        call: C,
    ) -> C::Answer
        requires lock { pass.old.lock ≡ self.now }
        requires by { (pass.old.number ≡ Some by) ⊎ ((s t : B) (a : C.Answer) → C.does call by s a t → B.entries t ≡ B.entries s) }
        requires needs { C.needs call by pass.old.seen (known_callers pass.old.number by) }
        ensures { IsTurn record { entries = B.entries; owner = B.owner; caller_count = B.caller_count; fixed = B.fixed } B.noted (λ s t. C.does call by s result t) by pass.old pass.new }
    {
        let ticket = self.tickets.take_ticket(rt, &mut pass.seat);
        self.tickets.wait(rt, &mut pass.seat, ticket);
        let mut state = self.tickets.take_out(&mut pass.seat);
        let found = state.note();
        let answer = call.act(by, &mut state);
        let left = state.note();
        let point = state.length();
        self.tickets.end_turn(&mut pass.seat, by, state);
        let turned = pass.last.turned.saturating_add(1);
        pass.last = Last {
            turned,
            found,
            left,
        };
        pass.point = point;
        answer
    }

    /// The pass as it was, and a second one that has seen the same and has no number.
    pub fn split(&self, pass: Pass<B>) -> (Pass<B>, Pass<B>)
        requires { pass.lock ≡ self.now }
        ensures kept { result.0 ≡ pass }
        ensures new { result.1 ≡ record { lock = pass.lock; seen = pass.seen; number = None; last = pass.last } }
    {
        let Pass {
            mut seat,
            last,
            point,
        } = pass;
        let other = self.tickets.split(&mut seat);
        (
            Pass { seat, last, point },
            Pass {
                seat: other,
                last,
                point,
            },
        )
    }

    /// The first pass, which has then seen the longer of both histories: one of them begins the other.
    pub fn join(&self, a: Pass<B>, b: Pass<B>) -> Pass<B>
        requires { (a.lock ≡ self.now) × (b.lock ≡ self.now) }
        ensures pass { result ≡ record { lock = a.lock; seen = longer a.seen b.seen; number = a.number; last = a.last } }
        ensures prefixes { IsPrefix a.seen result.seen × IsPrefix b.seen result.seen }
    {
        let Pass {
            mut seat,
            last,
            point,
        } = a;
        let Pass {
            seat: other,
            last: _,
            point: others,
        } = b;
        self.tickets.join(&mut seat, other);
        let point = point.max(others);
        Pass { seat, last, point }
    }
}
