// The rule of a lock's table, and what each kind of step on its words tells.
ghost use Rattle.turn_lock.specs.Rule.{LockRule, first_view, split_view, joined, spent_view, TakesTicket, ReadsServing, CountsSleepers, StoresLength, StoresCallers, RaisesServing, MergesSeen};

use crate::stored::Stored;
use crate::view::View;
use atomic_table::{Join, Play, Split, TableRule};
use std::marker::PhantomData;
use std::snapshot::Snapshot;

// The key is the value at the start, of which the rule reads the part that no call changes.
pub struct TurnRule<B> {
    marker: PhantomData<B>,
}

impl<B: Stored> TableRule<Option<B>, View<B::Entry, B::Fixed>, Snapshot<B>> for TurnRule<B> {
    ghost holds = { λ key. LockRule record { entries = B.entries; owner = B.owner; caller_count = B.caller_count; fixed = B.fixed } (B.fixed key.value) };

    ghost first = { λ key. first_view record { entries = B.entries; owner = B.owner; caller_count = B.caller_count; fixed = B.fixed } key.value };
}

// The next ticket is taken.
pub struct TakeTicket;

impl<B: Stored> Play<Option<B>, View<B::Entry, B::Fixed>> for TakeTicket {
    ghost then = { TakesTicket };
}

// A look at whose turn it is.
pub struct ReadServing;

impl<B: Stored> Play<Option<B>, View<B::Entry, B::Fixed>> for ReadServing {
    ghost then = { ReadsServing record { entries = B.entries; owner = B.owner; caller_count = B.caller_count; fixed = B.fixed } };
}

// A pass goes to sleep, or wakes.
pub struct CountSleepers;

impl<B: Stored> Play<Option<B>, View<B::Entry, B::Fixed>> for CountSleepers {
    ghost then = { CountsSleepers };
}

// The length of the history is stored: at this step what the turn added is in the history.
pub struct StoreLength;

impl<B: Stored> Play<Option<B>, View<B::Entry, B::Fixed>> for StoreLength {
    ghost then = { StoresLength record { entries = B.entries; owner = B.owner; caller_count = B.caller_count; fixed = B.fixed } };
}

// The count of caller numbers is stored: at this step a new number is the pass's own.
pub struct StoreCallers;

impl<B: Stored> Play<Option<B>, View<B::Entry, B::Fixed>> for StoreCallers {
    ghost then = { StoresCallers };
}

// The turn ends.
pub struct RaiseServing;

impl<B: Stored> Play<Option<B>, View<B::Entry, B::Fixed>> for RaiseServing {
    ghost then = { RaisesServing };
}

// A pass that another was joined to sees the longer list.
pub struct MergeSeen;

impl<B: Stored> Play<Option<B>, View<B::Entry, B::Fixed>> for MergeSeen {
    ghost then = { MergesSeen };
}

// How passes are split and joined.
pub struct SplitJoin;

impl<E, F> Split<View<E, F>> for SplitJoin {
    ghost left = { λ v. v };

    ghost right = { split_view };
}

impl<E, F> Join<View<E, F>> for SplitJoin {
    ghost both = { joined };

    ghost spent = { spent_view };
}
