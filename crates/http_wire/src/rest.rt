ghost use Rattle.http_wire.specs.Fits.{IsFit};

use crate::fault::WireFault;

/// What comes next of a body.
#[derive(Clone, Copy, Debug, PartialEq, Eq)]
pub enum Stage {
    /// So many bytes, and nothing behind them.
    Bytes(u64),
    /// A chunk line, behind chunks whose sizes have this sum.
    Line(u64),
    /// So many bytes of a chunk, which is in the sum, and CR LF.
    Chunk(u64, u64),
    /// Lines with room for so many bytes, up to an empty one.
    Trailers(u64),
}

/// What a reader of parts answers.
#[derive(Clone, Copy, Debug, PartialEq, Eq)]
pub enum Part {
    /// 1 to 65,536 bytes came.
    More,
    /// The body is whole.
    Done,
    Refused(WireFault),
    /// The source ended inside the body.
    Truncated,
    ReadFault,
}

/// What is left of a body to read.
#[derive(Debug, Drop)]
pub struct Rest {
    pub(crate) stage: Stage,
    pub(crate) limit: u64,
    ghost fit: { IsFit limit stage },
}
