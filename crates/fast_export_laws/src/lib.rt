//! Laws of the streams that `fast_export` reads, each the contract of a function that does nothing.
#![tactic(auto)]

ghost use Rattle.std.specs.Prelude.{ℕ, []};
ghost use Rattle.fast_export.specs.Facts.{start};
ghost use Rattle.fast_export_laws.specs.Laws.{FaultsStay, EndsExactly, StandsAtLine, LinesFollow, OnlyDataIsFollowed, BytesAreFree};

/// A text with a fault has the same fault however it goes on.
pub fn a_fault_stays()
    ensures { FaultsStay }
{}

/// At the end of a text `Ended` is answered exactly where the text has to go on.
pub fn the_end_is_a_fault_of_short_texts()
    ensures { EndsExactly }
{}

/// The bytes behind a line `data` are free: others of the same number change nothing in what a stream
/// says, the rows and the faults alike. A line comes first, and then behind each line that goes on and the
/// bytes that it counts.
pub fn the_bytes_behind_data_change_nothing()
    ensures begins { (most : ℕ) → StandsAtLine most [] [] start }
    ensures follow { LinesFollow }
    ensures data { OnlyDataIsFollowed }
    ensures free { BytesAreFree }
{}
