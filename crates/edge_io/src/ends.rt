ghost use Rattle.std.specs.Prelude.{◌≡◌};

use crate::sink::Sink;
use crate::source::{Failed, Source};
use std::io::{Read, Write};

/// A reader of std as a source. It counts each error of the reader.
#[derive(Drop)]
pub struct ReadEnd<R> {
    reader: R,
    faults: u64,
}

impl<R: Read> ReadEnd<R> {
    /// A source over a reader. No fault is counted yet.
    pub fn new(reader: R) -> ReadEnd<R>
        ensures left { ⟦<ReadEnd<R> as Source>⟧.left result ≡ R.remaining reader }
        ensures faults { ⟦<ReadEnd<R> as Source>⟧.faults result ≡ 0 }
    {
        ReadEnd { reader, faults: 0 }
    }
}

impl<R: Read> Source for ReadEnd<R> {
    ghost left = { λ s. R.remaining s.reader };

    ghost faults = { λ s. s.faults };

    fn read(&mut self, into: &mut [u8]) -> Result<usize, Failed> {
        match self.reader.read(into) {
            Ok(count) => Ok(count),
            Err(_) => {
                self.faults = self.faults.saturating_add(1);
                Err(Failed)
            }
        }
    }
}

/// A writer of std as a sink. It counts each error of the writer, and each write that took nothing
/// of a piece that is not empty.
#[derive(Drop)]
pub struct WriteEnd<W> {
    writer: W,
    faults: u64,
}

impl<W: Write> WriteEnd<W> {
    /// A sink over a writer. No fault is counted yet.
    pub fn new(writer: W) -> WriteEnd<W>
        ensures held { ⟦<WriteEnd<W> as Sink>⟧.held result ≡ W.contents writer }
        ensures faults { ⟦<WriteEnd<W> as Sink>⟧.faults result ≡ 0 }
    {
        WriteEnd { writer, faults: 0 }
    }
}

impl<W: Write> Sink for WriteEnd<W> {
    ghost held = { λ s. W.contents s.writer };

    ghost faults = { λ s. s.faults };

    fn write(&mut self, piece: &[u8]) -> Result<usize, Failed> {
        match self.writer.write(piece) {
            Ok(count) if 0 < count || piece.is_empty() => Ok(count),
            _ => {
                self.faults = self.faults.saturating_add(1);
                Err(Failed)
            }
        }
    }
}
