ghost use Rattle.std.specs.Prelude.{◌≡◌};

use edge_io::Failed;
use osv_prim::Memory;
use std::alloc::AllocError;

/// Why a source was not read to its end.
#[derive(Clone, Copy, Debug, PartialEq, Eq)]
pub enum ReadStop {
    /// The source failed.
    Source,
    /// Want of memory.
    Memory,
}

impl From<Failed> for ReadStop {
    ghost use Rattle.line_input.specs.declared.stop.ReadStop.TheVariants.{Source};

    ghost from_gives = { λ _ e. e ≡ Source };

    fn from(_failed: Failed) -> ReadStop {
        ReadStop::Source
    }
}

impl From<AllocError> for ReadStop {
    ghost use Rattle.line_input.specs.declared.stop.ReadStop.TheVariants.{Memory};

    ghost from_gives = { λ _ e. e ≡ Memory };

    fn from(_refused: AllocError) -> ReadStop {
        ReadStop::Memory
    }
}

impl From<Memory> for ReadStop {
    ghost use Rattle.line_input.specs.declared.stop.ReadStop.TheVariants.{Memory};

    ghost from_gives = { λ _ e. e ≡ Memory };

    fn from(_refused: Memory) -> ReadStop {
        ReadStop::Memory
    }
}
