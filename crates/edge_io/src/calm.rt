ghost use Rattle.std.specs.Prelude.{◌≡◌, Ok, Some, None, length, min};
ghost use Rattle.std.specs.Io.{ReadsAtMost, WritesAtMost};
ghost use Rattle.std.specs.Io.KnownBytes.{ReadConsumes};

use crate::memory::give;
use crate::sink::Sink;
use crate::source::{Failed, Source};
use std::marker::Model;

/// A source over bytes in memory that never fails: its count of faults stays 0. Contracts see it as
/// the bytes that are still to come.
#[derive(Drop)]
pub struct CalmSource {
    bytes: Vec<u8>,
    at: usize,
}

impl Model for CalmSource {
    ghost use Rattle.std.specs.Prelude.{List, ℕ, ◌≤◌, drop, vec_len};

    ghost Value = { List ℕ };

    ghost view = { λ s. drop s.at s.bytes.items };

    ghost invariant = { λ s. s.at ≤ vec_len s.bytes };
}

impl CalmSource {
    /// A source that gives the bytes of a vector, without a copy of them.
    pub fn new(bytes: Vec<u8>) -> CalmSource
        ensures { result ≡ bytes.items }
    {
        CalmSource { bytes, at: 0 }
    }
}

impl Source for CalmSource {
    ghost left = { λ s. Some s };

    ghost faults = { λ _. 0 };

    /// As of every source. It gives as many bytes as there are and as the piece has room for.
    fn read(&mut self, into: &mut [u8]) -> Result<usize, Failed>
        ensures bytes { ReadConsumes (Some self.old) (Some self.new) result into.new }
        ensures count { result ≡ Ok (min (length into.new) (length self.old)) }
    {
        let count = give(into, &self.bytes[self.at..], into.len());
        self.at += count;
        Ok(count)
    }
}

/// A sink that takes every byte, keeps none, tells none and never fails: its count of faults stays 0.
#[derive(Clone, Copy, Debug, Default)]
pub struct CalmSink;

impl CalmSink {
    /// The sink. All of them are the same.
    pub fn new() -> CalmSink {
        CalmSink
    }
}

impl Sink for CalmSink {
    ghost held = { λ _. None };

    ghost faults = { λ _. 0 };

    /// As of every sink. It takes all of the piece.
    fn write(&mut self, piece: &[u8]) -> Result<usize, Failed>
        ensures { result ≡ Ok (length piece.now) }
    {
        Ok(piece.len())
    }
}
