ghost use Rattle.std.specs.Prelude.{◌≡◌, ◌+◌, ◌^◌, ◌<◌, ◌≤◌, ℕ, List, [], ◌++◌, length, drop, vec_len, IfOk, OnOk, OnErr};
ghost use Rattle.std.specs.Io.KnownBytes.{Keeps, Consumes, IsAtEnd};
ghost use Rattle.edge_io.specs.Causes.{HasCause};

use edge_io::{Failed, Source};
use std::alloc::{AllocError, Global};

/// How many bytes are asked of a source at once.
pub(crate) const PIECE_BYTES: usize = 262144;

/// The bytes from `start` to `end`, and room behind them.
#[derive(Drop)]
pub(crate) struct Window {
    bytes: Vec<u8>,
    start: usize,
    end: usize,
    ghost ordered: { start ≤ end },
    ghost within: { end ≤ vec_len bytes },
}

impl Window {
    ghost use Rattle.line_input.specs.Window.{has_room, items};

    pub(crate) fn new(alloc: Global) -> Window
        ensures { items result ≡ [] }
    {
        Window {
            bytes: Vec::new(alloc),
            start: 0,
            end: 0,
        }
    }

    pub(crate) fn as_slice(&self) -> &[u8]
        ensures { result.now ≡ items self.now }
    {
        &self.bytes[self.start..self.end]
    }

    pub(crate) fn consume(&mut self, count: usize)
        requires { count ≤ length (items self.old) }
        ensures { items self.new ≡ drop count (items self.old) }
    {
        self.start += count;
    }

    /// Has room for one piece behind the bytes.
    pub(crate) fn make_room(&mut self) -> Result<(), AllocError>
        ensures items { items self.new ≡ items self.old }
        ensures room { OnOk result (has_room self.new) }
    {
        if self.start > 0 {
            self.move_to_front();
        }
        self.grow()
    }

    fn move_to_front(&mut self)
        ensures { items self.new ≡ items self.old }
    {
        let (start, end) = (self.start, self.end);
        self.bytes.copy_within(start..end, 0);
        self.start = 0;
        self.end = end - start;
    }

    fn grow(&mut self) -> Result<(), AllocError>
        ensures items { items self.new ≡ items self.old }
        ensures room { OnOk result (has_room self.new) }
    {
        let wanted = self.end + PIECE_BYTES;
        if self.bytes.len() < wanted {
            self.bytes.resize(wanted, 0)?;
        }
        Ok(())
    }

    /// Reads behind the bytes: how many bytes came, and 0 at the end of the source.
    pub(crate) fn read_from<S: Source>(&mut self, source: &mut S) -> Result<usize, Failed>
        requires { has_room self.old }
        ensures ok { IfOk result (λ n. (more : List ℕ) × (length more ≡ n) × (items self.new ≡ items self.old ++ more)
            × Consumes (S.left source.old) (S.left source.new) more) }
        ensures bound { IfOk result (λ n. n < 2 ^ 63) }
        ensures end { IfOk result (λ n. n ≡ 0 → IsAtEnd (S.left source.new)) }
        ensures err { OnErr result ((items self.new ≡ items self.old) × Keeps (S.left source.old) (S.left source.new)) }
        ensures cause { HasCause (S.faults source.old) (S.faults source.new) result }
    {
        let end = self.end;
        let count = source.read(&mut self.bytes[end..])?;
        self.end = end + count;
        Ok(count)
    }
}
