ghost use Rattle.std.specs.Prelude.{◌≡◌};

use crate::commits::CommitFault;
use crate::line::LineFault;
use line_input::ReadStop;
use osv_prim::{Memory, Stop};
use std::alloc::AllocError;

/// Why an input is not answered by ids.
#[derive(Clone, Copy, Debug, PartialEq, Eq)]
pub(crate) enum InputStop {
    /// A line of advisories is refused. The input was not read further.
    Line(LineFault),
    /// There is no graph of the commits. The input was read to its end.
    Commits(CommitFault),
    /// The input has more bytes than the limit.
    TooLarge,
    /// The source failed, or want of memory.
    Read(ReadStop),
}

impl From<ReadStop> for InputStop {
    ghost use Rattle.ask.specs.declared.stop.InputStop.TheVariants.{Read};

    ghost from_gives = { λ s e. e ≡ Read s };

    fn from(stop: ReadStop) -> InputStop {
        InputStop::Read(stop)
    }
}

impl From<Memory> for InputStop {
    ghost use Rattle.ask.specs.Stops.{no_memory};

    ghost from_gives = { λ _ e. e ≡ no_memory };

    fn from(_refused: Memory) -> InputStop {
        InputStop::Read(ReadStop::Memory)
    }
}

impl From<AllocError> for InputStop {
    ghost use Rattle.ask.specs.Stops.{no_memory};

    ghost from_gives = { λ _ e. e ≡ no_memory };

    fn from(_refused: AllocError) -> InputStop {
        InputStop::Read(ReadStop::Memory)
    }
}

impl From<Stop<LineFault>> for InputStop {
    ghost use Rattle.ask.specs.Stops.{line_stop};

    ghost from_gives = { λ s e. e ≡ line_stop s };

    fn from(stop: Stop<LineFault>) -> InputStop {
        match stop {
            Stop::Memory => InputStop::Read(ReadStop::Memory),
            Stop::Refused(fault) => InputStop::Line(fault),
        }
    }
}

impl From<Stop<CommitFault>> for InputStop {
    ghost use Rattle.ask.specs.Stops.{commits_stop};

    ghost from_gives = { λ s e. e ≡ commits_stop s };

    fn from(stop: Stop<CommitFault>) -> InputStop {
        match stop {
            Stop::Memory => InputStop::Read(ReadStop::Memory),
            Stop::Refused(fault) => InputStop::Commits(fault),
        }
    }
}
