ghost use Rattle.std.specs.Prelude.{◌≡◌, ◌≢◌, ◌<◌, IfOk, IfErr, Ok, Err, length};
ghost use Rattle.fast_export.specs.declared.fault.StreamFault.TheVariants.{Memory as no_memory};
ghost use Rattle.fast_export.specs.Stream.{stream, answer};

use fast_export::{Reader, StreamFault};
use fast_export_laws::a_fault_stays;
use osv_prim::{CommitRow, List};
use std::alloc::Global;

/// What a stream says that is fed in pieces of this size.
pub fn read_in(
    alloc: Global,
    text: &[u8],
    size: usize,
    most: u32,
) -> Result<List<CommitRow>, StreamFault>
    requires { 0 < size }
    ensures ok { IfOk result (λ rows. answer (length text.now) (stream text.now most) ≡ Ok rows) }
    ensures err { IfErr result (λ e. e ≢ no_memory → answer (length text.now) (stream text.now most) ≡ Err e) }
{
    // A fault of the front of the text is a fault of the text.
    a_fault_stays();
    let mut reader = Reader::new(alloc, most)?;
    let mut rest = text;
    while !rest.is_empty() {
        let (piece, after) = rest.split_at(size.min(rest.len()));
        reader.feed(piece)?;
        rest = after;
    }
    reader.finish()
}

/// What a stream says that is fed in two pieces.
pub fn read_at(
    alloc: Global,
    text: &[u8],
    offset: usize,
    most: u32,
) -> Result<List<CommitRow>, StreamFault> {
    let (front, back) = text.split_at(offset.min(text.len()));
    let mut reader = Reader::new(alloc, most)?;
    reader.feed(front)?;
    reader.feed(back)?;
    reader.finish()
}

/// Whether a fault is answered from then on.
pub fn stays(alloc: Global, text: &[u8], most: u32) -> bool {
    let Ok(mut reader) = Reader::new(alloc, most) else {
        return false;
    };
    let Err(fault) = reader.feed(text) else {
        return true;
    };
    if reader.feed(b"blob\n") != Err(fault) {
        return false;
    }
    match reader.finish() {
        Ok(_) => false,
        Err(last) => last == fault,
    }
}
