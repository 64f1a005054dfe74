ghost use Rattle.std.specs.Prelude.{◌≡◌, ◌<◌, ◌≤◌, ◌+◌, ◌^◌, length};
ghost use Rattle.fast_export.specs.Lines.{IsClean, max_line_bytes};

use crate::commands::{Commands, Then};
use crate::cut::next_line;
use crate::fault::StreamFault;
use osv_prim::{CommitRow, List};
use std::alloc::Global;

/// The most bytes of a line of a stream, its LF not counted.
pub const MAX_LINE_BYTES: usize = 65_536;

/// A stream that has come so far.
#[derive(Drop)]
pub(crate) struct Reading {
    commands: Commands,
    // The front of a line whose LF has not come.
    line: Vec<u8>,
    // The offset in bytes at which that line begins.
    at: u64,
    // How many bytes still follow a line `data`.
    skip: u64,
    // The line `done` was read.
    ended: bool,
    ghost clean: { IsClean line.items },
    ghost short: { length line.items ≤ max_line_bytes },
    ghost bounded: { at + length line.items < 2 ^ 64 },
}

impl Reading {
    ghost use Rattle.std.specs.Prelude.{◌≡◌, ◌<◌, ◌≤◌, ◌+◌, ◌-◌, ◌^◌, ◌++◌, ◌∷◌, ◌≢◌, [], ℕ, List, length, true, false, OnOk, IfOk, IfErr};
    ghost use Rattle.fast_export.specs.Lines.{IsClean, max_line_bytes};
    ghost use Rattle.fast_export.specs.declared.fault.StreamFault.TheVariants.{Memory as no_memory, Ended as ended_at};
    ghost use Rattle.fast_export.specs.Facts.{rows_of};
    ghost use Rattle.fast_export.specs.Stream.{stream, outcome, Stop, Whole, Short};
    ghost use Rattle.fast_export.specs.Commits.{facts_of};
    ghost use Rattle.fast_export.specs.Following.{offered};
    ghost use Rattle.fast_export.specs.Offers.{Offers};
    ghost use Rattle.fast_export.specs.Reading.{come, resume, Leads, Faulty, IsAtLine};

    /// A stream of which nothing has come.
    pub(crate) fn new(alloc: Global, most: u32) -> Reading
        ensures starts { (text : List ℕ) → outcome (resume result text) ≡ stream text most }
        ensures count { come result ≡ 0 }
    {
        Reading {
            commands: Commands::new(alloc, most),
            line: Vec::new(alloc),
            at: 0,
            skip: 0,
            ended: false,
        }
    }

    // Whether the stream may end here.
    fn may_end(&self) -> bool
        requires { self.now.ended ≡ false }
        ensures whole { result ≡ true → resume self.now [] ≡ Stop (Whole (rows_of (facts_of self.now.commands.commits))) }
        ensures short { result ≡ false → resume self.now [] ≡ Stop Short }
    {
        if self.skip > 0 {
            return false;
        }
        if !self.line.is_empty() {
            return false;
        }
        self.commands.may_end()
    }

    /// The rows, where the stream may end here.
    pub(crate) fn finish(self) -> Result<List<CommitRow>, StreamFault>
        ensures ok { IfOk result (λ rows. resume self [] ≡ Stop (Whole rows)) }
        ensures err { IfErr result (λ e. e ≢ no_memory → (resume self [] ≡ Stop Short) × (e ≡ ended_at (come self))) }
    {
        if self.ended {
            return Ok(self.commands.into_rows());
        }
        if !self.may_end() {
            return Err(StreamFault::Ended {
                at: self.at + self.line.len() as u64,
            });
        }
        self.commands.finish()
    }

    // Passes over bytes behind a line `data`.
    fn pass<'a>(&mut self, text: &'a [u8]) -> &'a [u8]
        requires going { self.old.ended ≡ false }
        requires skip { 0 < self.old.skip }
        requires some { 0 < length text.now }
        requires room { come self.old + length text.now < 2 ^ 64 }
        ensures leads { Leads self.old text.now self.new result.now }
        ensures shorter { length result.now < length text.now }
    {
        let count = self.skip.min(text.len() as u64);
        self.skip -= count;
        self.at += count;
        &text[count as usize..]
    }

    // Offers the line that ends here, and keeps none of it.
    fn offer(&mut self, front: &[u8]) -> Result<Then, StreamFault>
        requires clean { IsClean front.now }
        requires short { length self.old.line.items + length front.now ≤ max_line_bytes }
        requires room { come self.old + length front.now < 2 ^ 64 }
        ensures line { Offers result self.new.commands.parts.now (facts_of self.new.commands.commits)
            (offered self.old.commands.most self.old.commands.parts.now (facts_of self.old.commands.commits) self.old.at (self.old.line.items ++ front.now)) }
        ensures empty { OnOk result (self.new.line.items ≡ []) }
        ensures most { self.new.commands.most ≡ self.old.commands.most }
        ensures at { self.new.at ≡ self.old.at }
        ensures skip { self.new.skip ≡ self.old.skip }
        ensures ended { self.new.ended ≡ self.old.ended }
    {
        if self.line.is_empty() {
            return self.commands.line(front, self.at);
        }
        self.line.extend_from_slice(front)?;
        let then = self.commands.line(self.line.as_slice(), self.at)?;
        self.line.clear();
        Ok(then)
    }

    // Takes the end of a line, before its LF.
    fn take_line(&mut self, front: &[u8]) -> Result<(), StreamFault>
        requires going { IsAtLine self.old }
        requires clean { IsClean front.now }
        requires room { come self.old + (length front.now + 1) < 2 ^ 64 }
        ensures ok { OnOk result ((after : List ℕ) → Leads self.old (front.now ++ 10 ∷ after) self.new after) }
        ensures err { IfErr result (λ e. (after : List ℕ) → Faulty self.old (front.now ++ 10 ∷ after) e) }
    {
        if self.line.len() + front.len() > MAX_LINE_BYTES {
            return Err(StreamFault::LineTooLong { at: self.at });
        }
        let end = self.at + (self.line.len() + front.len()) as u64 + 1;
        let then = self.offer(front)?;
        self.at = end;
        match then {
            Then::Skip(count) => self.skip = count,
            Then::Ends => self.ended = true,
        }
        Ok(())
    }

    // Keeps the front of a line.
    fn keep(&mut self, front: &[u8]) -> Result<(), StreamFault>
        requires going { IsAtLine self.old }
        requires clean { IsClean front.now }
        requires room { come self.old + length front.now < 2 ^ 64 }
        ensures ok { OnOk result (Leads self.old front.now self.new []) }
        ensures err { IfErr result (λ e. Faulty self.old front.now e) }
    {
        if self.line.len() + front.len() > MAX_LINE_BYTES {
            return Err(StreamFault::LineTooLong { at: self.at });
        }
        self.line.extend_from_slice(front)?;
        Ok(())
    }

    // Takes one line, or the bytes behind a line `data`, or what has come of them.
    fn advance<'a>(&mut self, text: &'a [u8]) -> Result<&'a [u8], StreamFault>
        requires some { 0 < length text.now }
        requires room { come self.old + length text.now < 2 ^ 64 }
        ensures ok { IfOk result (λ rest. Leads self.old text.now self.new rest.now) }
        ensures shorter { IfOk result (λ rest. length rest.now < length text.now) }
        ensures err { IfErr result (λ e. Faulty self.old text.now e) }
    {
        if self.ended {
            self.at += text.len() as u64;
            return Ok(&[]);
        }
        if self.skip > 0 {
            return Ok(self.pass(text));
        }
        match next_line(text) {
            Some((front, after)) => {
                self.take_line(front)?;
                Ok(after)
            }
            None => {
                self.keep(text)?;
                Ok(&[])
            }
        }
    }

    /// Takes the next piece of the stream.
    pub(crate) fn feed(&mut self, piece: &[u8]) -> Result<(), StreamFault>
        requires { come self.old + length piece.now < 2 ^ 64 }
        ensures ok { OnOk result (Leads self.old piece.now self.new []) }
        ensures err { IfErr result (λ e. Faulty self.old piece.now e) }
    {
        let mut rest = piece;
        while !rest.is_empty() {
            rest = self.advance(rest)?;
        }
        Ok(())
    }
}
