ghost use Rattle.std.specs.Prelude.{◌≡◌};
ghost use Rattle.fast_export.specs.Faults.{code_of, name_of, offset_of};

use osv_prim::Memory;
use std::alloc::{AllocError, AllocFailed};

/// Why a stream is refused. `at` is the offset in bytes, from 0, of the first byte of the faulty line;
/// for `Ended` it is the length of the stream.
#[derive(Clone, Copy, Debug, PartialEq, Eq)]
pub enum StreamFault {
    /// A line that may not stand here, or that is malformed.
    BadLine { at: u64 },
    /// A line `data` whose count is no number, or is 2^64 or more.
    BadData { at: u64 },
    /// A commit without the line `original-oid`.
    NoOriginalOid { at: u64 },
    /// A commit's id that is not 40 hex digits.
    BadOid { at: u64 },
    /// A parent's mark that no earlier commit has.
    UnknownMark { at: u64 },
    /// A commit's mark that an earlier commit has.
    MarkTwice { at: u64 },
    /// A parent that is neither an id nor a mark.
    RefParent { at: u64 },
    /// The stream ends where it may not.
    Ended { at: u64 },
    /// A commit beyond the limit.
    TooManyCommits { at: u64 },
    /// A line of more than `MAX_LINE_BYTES` bytes, its LF not counted.
    LineTooLong { at: u64 },
    /// Want of memory.
    Memory,
}

impl StreamFault {
    /// The offset of the fault in bytes, from 0. It is 0 for want of memory.
    pub fn at(&self) -> u64
        ensures { result ≡ offset_of self.now }
    {
        match *self {
            StreamFault::BadLine { at }
            | StreamFault::BadData { at }
            | StreamFault::NoOriginalOid { at }
            | StreamFault::BadOid { at }
            | StreamFault::UnknownMark { at }
            | StreamFault::MarkTwice { at }
            | StreamFault::RefParent { at }
            | StreamFault::Ended { at }
            | StreamFault::TooManyCommits { at }
            | StreamFault::LineTooLong { at } => at,
            StreamFault::Memory => 0,
        }
    }

    /// The number under which the fault is printed, from 1 to 11 in the order of the variants.
    pub fn code(&self) -> u8
        ensures { result ≡ code_of self.now }
    {
        match self {
            StreamFault::BadLine { .. } => 1,
            StreamFault::BadData { .. } => 2,
            StreamFault::NoOriginalOid { .. } => 3,
            StreamFault::BadOid { .. } => 4,
            StreamFault::UnknownMark { .. } => 5,
            StreamFault::MarkTwice { .. } => 6,
            StreamFault::RefParent { .. } => 7,
            StreamFault::Ended { .. } => 8,
            StreamFault::TooManyCommits { .. } => 9,
            StreamFault::LineTooLong { .. } => 10,
            StreamFault::Memory => 11,
        }
    }

    /// The name under which the fault is printed, that of its variant.
    pub fn name(&self) -> &str
        ensures { result.now ≡ name_of self.now }
    {
        match self {
            StreamFault::BadLine { .. } => "BadLine",
            StreamFault::BadData { .. } => "BadData",
            StreamFault::NoOriginalOid { .. } => "NoOriginalOid",
            StreamFault::BadOid { .. } => "BadOid",
            StreamFault::UnknownMark { .. } => "UnknownMark",
            StreamFault::MarkTwice { .. } => "MarkTwice",
            StreamFault::RefParent { .. } => "RefParent",
            StreamFault::Ended { .. } => "Ended",
            StreamFault::TooManyCommits { .. } => "TooManyCommits",
            StreamFault::LineTooLong { .. } => "LineTooLong",
            StreamFault::Memory => "Memory",
        }
    }
}

impl From<Memory> for StreamFault {
    ghost use Rattle.fast_export.specs.declared.fault.StreamFault.TheVariants.{Memory as no_memory};

    ghost from_gives = { λ _ e. e ≡ no_memory };

    fn from(_refused: Memory) -> StreamFault {
        StreamFault::Memory
    }
}

impl From<AllocError> for StreamFault {
    ghost use Rattle.fast_export.specs.declared.fault.StreamFault.TheVariants.{Memory as no_memory};

    ghost from_gives = { λ _ e. e ≡ no_memory };

    fn from(_refused: AllocError) -> StreamFault {
        StreamFault::Memory
    }
}

impl<T: Drop> From<AllocFailed<T>> for StreamFault {
    ghost use Rattle.fast_export.specs.declared.fault.StreamFault.TheVariants.{Memory as no_memory};

    ghost from_gives = { λ _ e. e ≡ no_memory };

    fn from(_refused: AllocFailed<T>) -> StreamFault {
        StreamFault::Memory
    }
}
