ghost use Rattle.std.specs.Prelude.{◌≡◌, ◌≤◌, ◌<◌, ◌+◌, ◌↔◌, false, [], Some, take, drop, length, min, vec_capacity, IsTrue, IsErr, IfOk, OnErr};
ghost use Rattle.std.specs.Io.{ReadsAtMost, WritesAtMost};
ghost use Rattle.std.specs.Io.KnownBytes.{ReadConsumes, WriteAppends};
ghost use Rattle.edge_io.specs.Causes.{HasCause};
ghost use Rattle.edge_io.specs.Memory.{fails_next, one_more};

use crate::sink::Sink;
use crate::source::{Failed, Source};
use std::alloc::{AllocError, Global};
use std::marker::Model;

/// A source over bytes in memory, for tests: a call gives at most `most` bytes, and the calls of a
/// list, counted from 0, fail.
#[derive(Drop)]
pub struct MemSource {
    bytes: Vec<u8>,
    at: usize,
    fails: Vec<u64>,
    most: u64,
    calls: u64,
    faults: u64,
}

impl Model for MemSource {
    ghost use Rattle.std.specs.Prelude.{◌≤◌, drop, vec_len};
    ghost use Rattle.edge_io.specs.Memory.{Supply};

    ghost Value = { Supply };

    ghost view = { λ s. record { left = drop s.at s.bytes.items; fails = s.fails.items; most = s.most; calls = s.calls; faults = s.faults } };

    ghost invariant = { λ s. (s.at ≤ vec_len s.bytes) × (1 ≤ s.most) };
}

impl MemSource {
    /// A source that gives these bytes, at most `most` a call, and fails at the calls whose numbers,
    /// from 0, stand in `fails`. A call that fails gives nothing, and the next one goes on behind it.
    pub fn new(bytes: Vec<u8>, fails: Vec<u64>, most: u64) -> MemSource
        requires { 1 ≤ most }
        ensures { result ≡ record { left = bytes.items; fails = fails.items; most = most; calls = 0; faults = 0 } }
    {
        MemSource {
            bytes,
            at: 0,
            fails,
            most,
            calls: 0,
            faults: 0,
        }
    }
}

impl Source for MemSource {
    ghost left = { λ s. Some s.left };

    ghost faults = { λ s. s.faults };

    /// As of every source. It fails at the calls that were named and at no other, and gives as many
    /// bytes as there are, as the piece has room for, and as a call gives at most.
    fn read(&mut self, into: &mut [u8]) -> Result<usize, Failed>
        ensures bound { ReadsAtMost result into.new }
        ensures bytes { ReadConsumes (Some self.old.left) (Some self.new.left) result into.new }
        ensures cause { HasCause self.old.faults self.new.faults result }
        ensures named { IsErr result ↔ IsTrue (fails_next self.old.fails self.old.calls) }
        ensures count { IfOk result (λ n. n ≡ min (min (length into.new) (length self.old.left)) self.old.most) }

        // The call is counted, and the calls that fail and the most bytes of a call stay.
        ensures after { self.new ≡ record self.old { left = self.new.left; calls = one_more self.old.calls; faults = self.new.faults } }
    {
        let call = self.calls;
        self.calls = call.saturating_add(1);
        if fails_next(self.fails.as_slice(), call) {
            self.faults = self.faults.saturating_add(1);
            return Err(Failed);
        }
        let count = give(into, &self.bytes[self.at..], self.most as usize);
        self.at += count;
        Ok(count)
    }
}

// Whether the call with this number, from 0, is one of those that fail.
fn fails_next(fails: &[u64], calls: u64) -> bool
    ensures { result ≡ fails_next fails.now calls }
{
    fails.contains(&calls)
}

// Puts the front of the rest, at most so many bytes, into the front of the piece, and says how many.
pub(crate) fn give(into: &mut [u8], rest: &[u8], most: usize) -> usize
    ensures count { result ≡ min (min (length into.new) (length rest.now)) most }
    ensures given { take result into.new ≡ take result rest.now }
{
    let count = into.len().min(rest.len()).min(most);
    into[..count].copy_from_slice(&rest[..count]);
    count
}

/// A sink that keeps its bytes in memory, for tests: a call takes at most `most` bytes, and the
/// calls of a list, counted from 0, fail. A write that finds no memory fails too.
#[derive(Drop)]
pub struct MemSink {
    bytes: Vec<u8>,
    fails: Vec<u64>,
    most: u64,
    calls: u64,
    faults: u64,
}

impl Model for MemSink {
    ghost use Rattle.std.specs.Prelude.{◌≤◌, vec_capacity};
    ghost use Rattle.edge_io.specs.Memory.{Store};

    ghost Value = { Store };

    ghost view = { λ s. record { held = s.bytes.items; room = vec_capacity s.bytes; fails = s.fails.items; most = s.most; calls = s.calls; faults = s.faults } };

    ghost invariant = { λ s. 1 ≤ s.most };
}

impl MemSink {
    /// An empty sink that takes at most `most` bytes a call and fails at the calls whose numbers, from
    /// 0, stand in `fails`. It takes its memory as it needs it.
    pub fn new(alloc: Global, fails: Vec<u64>, most: u64) -> MemSink
        requires { 1 ≤ most }
        ensures { result ≡ record { held = []; room = result.room; fails = fails.items; most = most; calls = 0; faults = 0 } }
    {
        MemSink::over(Vec::new(alloc), fails, most)
    }

    /// The same, with memory for `room` bytes from the start: up to there no call fails but those that
    /// are named.
    pub fn with_room(
        alloc: Global,
        room: usize,
        fails: Vec<u64>,
        most: u64,
    ) -> Result<MemSink, AllocError>
        requires { 1 ≤ most }
        ensures { IfOk result (λ s. s ≡ record { held = []; room = room; fails = fails.items; most = most; calls = 0; faults = 0 }) }
    {
        Ok(MemSink::over(Vec::with_capacity(alloc, room)?, fails, most))
    }

    fn over(bytes: Vec<u8>, fails: Vec<u64>, most: u64) -> MemSink
        requires { 1 ≤ most }
        ensures { result ≡ record { held = bytes.items; room = vec_capacity bytes; fails = fails.items; most = most; calls = 0; faults = 0 } }
    {
        MemSink {
            bytes,
            fails,
            most,
            calls: 0,
            faults: 0,
        }
    }

    /// The bytes that were taken.
    pub fn bytes(&self) -> &[u8]
        ensures { result.now ≡ self.now.held }
    {
        self.bytes.as_slice()
    }
}

impl Sink for MemSink {
    ghost held = { λ s. Some s.held };

    ghost faults = { λ s. s.faults };

    /// As of every sink. It fails at the calls that were named, and else only where it wants memory,
    /// and takes as many bytes of the piece as a call takes at most.
    fn write(&mut self, piece: &[u8]) -> Result<usize, Failed>
        ensures bound { WritesAtMost result piece.now }
        ensures some { IfOk result (λ n. 0 < length piece.now → 0 < n) }
        ensures bytes { WriteAppends (Some self.old.held) (Some self.new.held) result piece.now }
        ensures cause { HasCause self.old.faults self.new.faults result }
        ensures named { IsTrue (fails_next self.old.fails self.old.calls) → IsErr result }
        ensures others { fails_next self.old.fails self.old.calls ≡ false
            → OnErr result (self.old.room < length self.old.held + min (length piece.now) self.old.most) }
        ensures count { IfOk result (λ n. n ≡ min (length piece.now) self.old.most) }
        ensures room { self.old.room ≤ self.new.room }

        // The call is counted, and the calls that fail and the most bytes of a call stay.
        ensures after { self.new ≡ record self.old { held = self.new.held; room = self.new.room; calls = one_more self.old.calls; faults = self.new.faults } }
    {
        let call = self.calls;
        self.calls = call.saturating_add(1);
        let named = fails_next(self.fails.as_slice(), call);
        if named {
            self.faults = self.faults.saturating_add(1);
            return Err(Failed);
        }
        let count = piece.len().min(self.most as usize);
        match self.bytes.extend_from_slice(&piece[..count]) {
            Ok(()) => Ok(count),
            Err(_) => {
                self.faults = self.faults.saturating_add(1);
                Err(Failed)
            }
        }
    }
}
