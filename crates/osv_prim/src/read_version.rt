ghost use Rattle.std.specs.Prelude.{◌≡◌};
ghost use Rattle.osv_prim.specs.declared.read_version.ReadVersion.TheVariants.{Memory as no_memory};

use crate::memory::Memory;
use std::alloc::{AllocError, AllocFailed};

/// Why a text was not read as a version.
#[derive(Clone, Copy, Debug, PartialEq, Eq)]
pub enum ReadVersion {
    /// The text is no version in the order that was asked for.
    NotAVersion,
    /// Want of memory.
    Memory,
}

impl From<Memory> for ReadVersion {
    ghost from_gives = { λ _ e. e ≡ no_memory };

    fn from(_refused: Memory) -> ReadVersion {
        ReadVersion::Memory
    }
}

impl From<AllocError> for ReadVersion {
    ghost from_gives = { λ _ e. e ≡ no_memory };

    fn from(_refused: AllocError) -> ReadVersion {
        ReadVersion::Memory
    }
}

impl<T: Drop> From<AllocFailed<T>> for ReadVersion {
    ghost from_gives = { λ _ e. e ≡ no_memory };

    fn from(_refused: AllocFailed<T>) -> ReadVersion {
        ReadVersion::Memory
    }
}
