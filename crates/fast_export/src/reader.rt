use crate::fault::StreamFault;
use crate::reading::Reading;
use osv_prim::{CommitRow, List, Memory};
use std::alloc::Global;

/// A reader of one stream (git's documentation, git-fast-import, "Input format", and git-fast-export,
/// "--show-original-ids"). It keeps the rows and the marks of the commits and at most one line; the bytes
/// behind a line `data` are passed over by their count.
#[derive(Drop)]
pub struct Reader {
    reading: Reading,
    fault: Option<StreamFault>,
}

impl Reader {
    ghost use Rattle.std.specs.Prelude.{◌≡◌, ◌≢◌, ◌<◌, ◌≤◌, ◌+◌, ◌^◌, ◌++◌, [], ℕ, List, length, OnOk, IfOk, IfErr, Some, None, Ok, Err};
    ghost use Rattle.fast_export.specs.declared.fault.StreamFault.{StreamFault};
    ghost use Rattle.fast_export.specs.declared.fault.StreamFault.TheVariants.{Memory as no_memory};
    ghost use Rattle.fast_export.specs.Stream.{stream, Bad, IsNoFault, answer};
    ghost use Rattle.fast_export.specs.Reads.{Reads, fault_of, fed_len};

    /// A reader of a stream in which at most `most` commits may come. Only want of memory is refused.
    pub fn new(alloc: Global, most: u32) -> Result<Reader, Memory>
        ensures reads { IfOk result (λ r. Reads most [] r) }
        ensures count { IfOk result (λ r. fed_len r ≡ 0) }
        ensures no_fault { IfOk result (λ r. fault_of r ≡ None) }
    {
        Ok(Reader {
            reading: Reading::new(alloc, most),
            fault: None,
        })
    }

    /// Reads the next piece of the stream, which may be of any size. The fault is the first one of all bytes
    /// so far, found when its line's LF has come or a byte beyond `MAX_LINE_BYTES`; `Memory` comes where a row, a
    /// mark or a line finds none. After a fault each later call answers that fault. Fewer than 2^64 bytes may
    /// be fed in all.
    pub fn feed(&mut self, piece: &[u8]) -> Result<(), StreamFault>
        requires { fed_len self.old + length piece.now < 2 ^ 64 }

        // Where it was fed these bytes, it is fed these and the piece.
        ensures reads { (most : ℕ) (fed : List ℕ) → Reads most fed self.old → Reads most (fed ++ piece.now) self.new }

        // The fault is that of all bytes.
        ensures ok { OnOk result ((most : ℕ) (fed : List ℕ) → Reads most fed self.old → IsNoFault (stream (fed ++ piece.now) most)) }
        ensures err { IfErr result (λ e. e ≢ no_memory → (most : ℕ) (fed : List ℕ) → Reads most fed self.old
            → stream (fed ++ piece.now) most ≡ Bad e) }

        // A fault stays.
        ensures no_fault { OnOk result (fault_of self.new ≡ None) }
        ensures fault { IfErr result (λ e. fault_of self.new ≡ Some e) }
        ensures stays { (e : StreamFault) → fault_of self.old ≡ Some e → result ≡ Err e }
        ensures count { fed_len self.new ≤ fed_len self.old + length piece.now }
    {
        if let Some(fault) = self.fault {
            return Err(fault);
        }
        match self.reading.feed(piece) {
            Ok(()) => Ok(()),
            Err(fault) => {
                self.fault = Some(fault);
                Err(fault)
            }
        }
    }

    /// The rows of the whole stream, one for each commit and in their order: its id, and as its parents the
    /// ids of `from` and of each `merge`. Where the stream may not end here the fault is `Ended` at the number
    /// of its bytes.
    pub fn finish(self) -> Result<List<CommitRow>, StreamFault>
        ensures ok { IfOk result (λ rows. (most : ℕ) (fed : List ℕ) → Reads most fed self → answer (length fed) (stream fed most) ≡ Ok rows) }
        ensures err { IfErr result (λ e. e ≢ no_memory → (most : ℕ) (fed : List ℕ) → Reads most fed self
            → answer (length fed) (stream fed most) ≡ Err e) }
        ensures stays { (e : StreamFault) → fault_of self ≡ Some e → result ≡ Err e }
    {
        if let Some(fault) = self.fault {
            return Err(fault);
        }
        self.reading.finish()
    }
}
