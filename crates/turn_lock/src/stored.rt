// What the lock reads of the value that lies in it.
ghost use Rattle.std.specs.Prelude.{◌≡◌, ℕ, List, length};
ghost use Rattle.turn_lock.specs.declared.note.Note.{Note};

use crate::note::Note;

/// A value with a history of entries, each by a caller with a number.
///
/// Contracts of the lock speak of the five meanings below. The value itself stays the caller's own type.
pub trait Stored {
    /// An entry of the history, as contracts see it. No value of it need be made.
    type Entry;

    /// What no call changes, as contracts see it.
    type Fixed;

    /// The history, the oldest entry first.
    ghost entries: { Self → List Self.Entry };

    /// Which caller an entry is by.
    ghost owner: { Self.Entry → ℕ };

    /// How many caller numbers were given. They are the numbers below it.
    ghost caller_count: { Self → ℕ };

    /// What no call changes.
    ghost fixed: { Self → Self.Fixed };

    /// The last answer that the history doesn't show.
    ghost noted: { Self → Note };

    /// How many entries there are.
    fn length(&self) -> u64
        ensures { result ≡ length (entries self.now) };

    /// How many caller numbers were given.
    fn callers(&self) -> u64
        ensures { result ≡ caller_count self.now };

    /// The last answer that the history doesn't show.
    fn note(&self) -> Note
        ensures { result ≡ noted self.now };
}
