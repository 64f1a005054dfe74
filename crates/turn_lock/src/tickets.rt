// The table under a lock, and the steps of a turn on it.
ghost use Rattle.std.specs.Prelude.{◌≡◌, ◌≢◌, ◌<◌, [], ◌∷◌, true, None, Some, MatchBool};
ghost use mathlib.Core.List.{IsPrefix};
ghost use Rattle.turn_lock.specs.Rule.{IsIdle, Waits, IsServed, split_view, joined, merged, queued, ended, MayLeave};

use crate::rule::{
    CountSleepers, MergeSeen, RaiseServing, ReadServing, SplitJoin, StoreCallers, StoreLength,
    TakeTicket, TurnRule,
};
use crate::stored::Stored;
use crate::view::View;
use atomic_table::{Seat, Table};
use std::alloc::Global;
use std::hint::spin_loop;
use std::snapshot::Snapshot;
use std::sync::Wait;
use std::thread::yield_now;

// The words of the table. The first two are written and looked at by many passes, and have a line of memory each.
const TICKET: usize = 0;

const SERVING: usize = 8;

const LENGTH: usize = 16;

const CALLERS: usize = 17;

const SLEEPERS: usize = 18;

// A pass that waits looks so often in a row, then so often with a yield before each look, and then sleeps.
const SPINS: u32 = 64;

const YIELDS: u32 = 64;

pub type PassSeat<B> = Seat<Option<B>, View<<B as Stored>::Entry, <B as Stored>::Fixed>>;

pub type LockTable<B> = Table<
    Option<B>,
    View<<B as Stored>::Entry, <B as Stored>::Fixed>,
    Snapshot<B>,
    TurnRule<B>,
    Global,
>;

// The table of a lock.
#[derive(Drop)]
pub struct TicketTable<B: Stored> {
    pub table: LockTable<B>,
    ghost sized: { (table.shared.table_id.words ≡ 19) × (table.shared.table_id.slots ≡ 1) },
}

impl<B: Stored + Drop> TicketTable<B> {
    // Takes the ticket `at`, unless another pass has taken it.
    fn try_take_ticket(&self, seat: &mut PassSeat<B>, at: u64) -> bool
        requires id { seat.old.table_id ≡ self.now.table.shared.table_id }
        requires idle { IsIdle seat.old.me }
        requires room { at < 18446744073709551615 }
        ensures id { seat.new.table_id ≡ seat.old.table_id }
        ensures taken { MatchBool result (seat.new.me ≡ (queued seat.old.me.0 at, [])) (seat.new.me ≡ seat.old.me) }
    {
        let found = self
            .table
            .shared
            .compare_exchange::<TakeTicket>(seat, TICKET, at, at + 1);
        found == at
    }

    // Takes the next ticket as soon as its turn has come, so that nobody waits for a pass that has a ticket and no processor.
    // There are 2^64 - 1 of them; a pass that finds none waits for good.
    pub fn take_ticket<R: Wait>(&self, rt: &R, seat: &mut PassSeat<B>) -> u64
        requires id { seat.old.table_id ≡ self.now.table.shared.table_id }
        requires idle { IsIdle seat.old.me }
        ensures id { seat.new.table_id ≡ seat.old.table_id }
        ensures taken { seat.new.me ≡ (queued seat.old.me.0 result, []) }
    {
        let mut looks = 0;
        for _ in rt.forever() {
            let served = self.table.shared.peek(SERVING);
            let at = self.table.shared.peek(TICKET);
            if at == served && at < u64::MAX && self.try_take_ticket(seat, at) {
                return at;
            }
            looks = self.pause(rt, seat, looks, served);
        }
        unreachable!()
    }

    // Waits behind a look of this number, counted from 0, that found this ticket served, and gives the next number.
    fn pause<R: Wait>(&self, rt: &R, seat: &mut PassSeat<B>, looks: u32, served: u64) -> u32
        requires id { seat.old.table_id ≡ self.now.table.shared.table_id }
        ensures id { seat.new.table_id ≡ seat.old.table_id }
        ensures same { seat.new.me ≡ seat.old.me }
    {
        if looks < SPINS {
            spin_loop();
        } else if looks < SPINS + YIELDS {
            yield_now();
        } else {
            self.sleep(rt, seat, served);
            return looks;
        }
        looks + 1
    }

    // The ticket that is served.
    fn read_serving(&self, seat: &mut PassSeat<B>, ticket: u64) -> u64
        requires id { seat.old.table_id ≡ self.now.table.shared.table_id }
        requires waits { Waits seat.old.me ticket }
        ensures id { seat.new.table_id ≡ seat.old.table_id }
        ensures served { result ≡ ticket → IsServed record { entries = B.entries; owner = B.owner; caller_count = B.caller_count; fixed = B.fixed } seat.old.me.0 seat.new.me }
        ensures waits { result ≢ ticket → seat.new.me ≡ seat.old.me }
    {
        self.table.shared.load::<ReadServing>(seat, SERVING)
    }

    // Sleeps while the ticket `found` is served, which a pass has. That pass raises the served ticket at the end of its turn
    // before it looks for sleepers, and a sleeper is counted before it compares, so none sleeps on when the lock is free.
    fn sleep<R: Wait>(&self, rt: &R, seat: &mut PassSeat<B>, found: u64)
        requires id { seat.old.table_id ≡ self.now.table.shared.table_id }
        ensures id { seat.new.table_id ≡ seat.old.table_id }
        ensures same { seat.new.me ≡ seat.old.me }
    {
        let shared = &self.table.shared;
        shared.fetch_add::<CountSleepers>(seat, SLEEPERS, 1);
        shared.park(rt, SERVING, (found % (1 << 32)) as u32);
        shared.fetch_sub::<CountSleepers>(seat, SLEEPERS, 1);
    }

    // Waits until the ticket is served: the pass then has the turn, and the slot.
    pub fn wait<R: Wait>(&self, rt: &R, seat: &mut PassSeat<B>, ticket: u64)
        requires id { seat.old.table_id ≡ self.now.table.shared.table_id }
        requires waits { Waits seat.old.me ticket }
        ensures id { seat.new.table_id ≡ seat.old.table_id }
        ensures served { IsServed record { entries = B.entries; owner = B.owner; caller_count = B.caller_count; fixed = B.fixed } seat.old.me.0 seat.new.me }
    {
        let mut looks = 0;
        for _ in rt.forever() {
            let found = self.read_serving(seat, ticket);
            if found == ticket {
                return;
            }
            looks = self.pause(rt, seat, looks, found);
        }
        unreachable!()
    }

    // Takes the value out of the slot that the pass holds.
    pub fn take_out(&self, seat: &mut PassSeat<B>) -> B
        requires id { seat.old.table_id ≡ self.now.table.shared.table_id }
        requires holds { (b : B) × (seat.old.me.1 ≡ (0, Some b) ∷ []) }
        ensures id { seat.new.table_id ≡ seat.old.table_id }
        ensures value { seat.old.me.1 ≡ (0, Some result) ∷ [] }
        ensures out { seat.new.me ≡ (seat.old.me.0, (0, None) ∷ []) }
    {
        let Some(state) = self.table.shared.exchange(seat, 0, None) else {
            unreachable!()
        };
        state
    }

    // Puts a value into it again.
    fn put_back(&self, seat: &mut PassSeat<B>, state: B)
        requires id { seat.old.table_id ≡ self.now.table.shared.table_id }
        requires out { seat.old.me.1 ≡ (0, None) ∷ [] }
        ensures id { seat.new.table_id ≡ seat.old.table_id }
        ensures holds { seat.new.me ≡ (seat.old.me.0, (0, Some state) ∷ []) }
    {
        drop(self.table.shared.exchange(seat, 0, Some(state)));
    }

    // Ends the turn with this value in the slot, and wakes a pass that sleeps.
    pub fn end_turn(&self, seat: &mut PassSeat<B>, by: u64, state: B)
        requires id { seat.old.table_id ≡ self.now.table.shared.table_id }
        requires out { seat.old.me.1 ≡ (0, None) ∷ [] }
        requires turn { seat.old.me.0.has_turn ≡ true }
        requires may { MayLeave record { entries = B.entries; owner = B.owner; caller_count = B.caller_count; fixed = B.fixed } seat.old.me.0 by state }
        ensures id { seat.new.table_id ≡ seat.old.table_id }
        ensures ended { seat.new.me ≡ (ended record { entries = B.entries; owner = B.owner; caller_count = B.caller_count; fixed = B.fixed } seat.old.me.0 state, []) }
    {
        let _by = by;
        let length = state.length();
        let callers = state.callers();
        self.put_back(seat, state);
        let shared = &self.table.shared;
        shared.store::<StoreLength>(seat, LENGTH, length);
        shared.store::<StoreCallers>(seat, CALLERS, callers);
        shared.fetch_add::<RaiseServing>(seat, SERVING, 1);
        if shared.peek(SLEEPERS) > 0 {
            // One, since it takes the next turn or finds that another has it, who wakes one again.
            shared.wake_one(SERVING);
        }
    }

    // A second pass that has seen the same.
    pub fn split(&self, seat: &mut PassSeat<B>) -> PassSeat<B>
        requires id { seat.old.table_id ≡ self.now.table.shared.table_id }
        ensures id { (seat.new.table_id ≡ seat.old.table_id) × (result.table_id ≡ seat.old.table_id) }
        ensures old { seat.new.me ≡ seat.old.me }
        ensures new { result.me ≡ (split_view seat.old.me.0, []) }
    {
        self.table.shared.split_seat::<SplitJoin>(seat)
    }

    // The pass has seen the longer of both lists, and the other pass is spent.
    pub fn join(&self, seat: &mut PassSeat<B>, other: PassSeat<B>)
        requires id { (seat.old.table_id ≡ self.now.table.shared.table_id) × (other.table_id ≡ self.now.table.shared.table_id) }
        requires idle { IsIdle seat.old.me × IsIdle other.me }
        ensures id { seat.new.table_id ≡ seat.old.table_id }
        ensures joined { seat.new.me ≡ (merged (joined seat.old.me.0 other.me.0), []) }
        ensures fronts { IsPrefix seat.old.me.0.seen seat.new.me.0.seen × IsPrefix other.me.0.seen seat.new.me.0.seen }
    {
        self.table.shared.join_seat::<SplitJoin>(seat, other);
        self.table.shared.load::<MergeSeen>(seat, TICKET);
    }
}
