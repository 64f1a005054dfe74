ghost use Rattle.std.specs.Prelude.{List, ℕ, ◌<◌, ◌≤◌, length, take, IfOk, IfErr, OnOk};
ghost use Rattle.std.specs.declared.option.Option.{Option};
ghost use Rattle.std.specs.Io.{WritesAtMost};
ghost use Rattle.std.specs.Io.KnownBytes.{WriteAppends, Appends};
ghost use Rattle.edge_io.specs.Causes.{HasCause};

use crate::source::Failed;

/// Where bytes go to.
///
/// `Failed` comes only where the count of faults rose in that call, and a failed write adds no byte. A
/// write that did not fail leaves the count as it was.
pub trait Sink {
    /// The bytes that it took, where the sink tells them.
    ghost held: { Self → Option (List ℕ) };

    /// How often a write failed. The count never falls and stays at 2^64 - 1.
    ghost faults: { Self → ℕ };

    /// Takes the front of a piece and says how many bytes it took: at least one of a piece that is
    /// not empty.
    fn write(&mut self, piece: &[u8]) -> Result<usize, Failed>
        ensures bound { WritesAtMost result piece.now }
        ensures some { IfOk result (λ n. 0 < length piece.now → 0 < n) }
        ensures bytes { WriteAppends (held self.old) (held self.new) result piece.now }
        ensures cause { HasCause (faults self.old) (faults self.new) result };
}

/// A write that failed after the sink had taken the first `out` bytes.
#[derive(Clone, Copy, Debug, PartialEq, Eq)]
pub struct SinkFault {
    /// How many bytes of the front the sink holds.
    pub out: u64,
}

/// Writes all the bytes, in as many writes as the sink wants: at most one for each byte. It takes no
/// memory. The first write that fails ends it, and the fault says how many bytes were taken before.
pub fn write_whole<K: Sink>(sink: &mut K, bytes: &[u8]) -> Result<(), SinkFault>
    ensures ok { OnOk result (Appends (K.held sink.old) (K.held sink.new) bytes.now) }
    ensures err { IfErr result (λ f. Appends (K.held sink.old) (K.held sink.new) (take f.out bytes.now)) }
    ensures within { IfErr result (λ f. f.out < length bytes.now) }
    ensures cause { HasCause (K.faults sink.old) (K.faults sink.new) result }
{
    let mut at = 0;
    while at < bytes.len() {
        match sink.write(&bytes[at..]) {
            Ok(count) => at += count,
            Err(_) => return Err(SinkFault { out: at as u64 }),
        }
    }
    Ok(())
}
