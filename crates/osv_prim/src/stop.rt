ghost use Rattle.std.specs.Prelude.{◌≡◌};
ghost use Rattle.osv_prim.specs.declared.stop.Stop.TheVariants.{Memory as no_memory};

use crate::memory::Memory;
use std::alloc::{AllocError, AllocFailed};

/// Why a reader stopped. A reader of several parts passes it on by `?`, and the public call turns it
/// into its own fault.
#[derive(Debug, Drop)]
pub enum Stop<F> {
    /// Want of memory.
    Memory,
    /// The input is refused, with this fault.
    Refused(F),
}

impl<F> From<Memory> for Stop<F> {
    ghost from_gives = { λ _ e. e ≡ no_memory };

    fn from(_refused: Memory) -> Stop<F> {
        Stop::Memory
    }
}

impl<F> From<AllocError> for Stop<F> {
    ghost from_gives = { λ _ e. e ≡ no_memory };

    fn from(_refused: AllocError) -> Stop<F> {
        Stop::Memory
    }
}

impl<T: Drop, F> From<AllocFailed<T>> for Stop<F> {
    ghost from_gives = { λ _ e. e ≡ no_memory };

    fn from(_refused: AllocFailed<T>) -> Stop<F> {
        Stop::Memory
    }
}
