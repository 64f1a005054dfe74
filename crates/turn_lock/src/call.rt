// What one turn does.
ghost use Rattle.std.specs.Prelude.{◌≡◌, ◌≤◌, ℕ, List};
ghost use mathlib.Core.List.{IsPrefix};
ghost use Rattle.turn_lock.specs.History.{GrownBy, GivesAtMostOne};

use crate::stored::Stored;

/// One step on a stored value, made in one turn.
///
/// The caller doesn't know the value that its step will meet, only how the history began and how many caller numbers
/// there are at least. So a condition speaks of these two alone, and has to last.
pub trait Call<B: Stored> {
    /// What the caller gets back.
    type Answer;

    /// When the step may be made: a relation of the call, the caller's number, the history and the count of numbers.
    ghost needs: { Self → ℕ → List B.Entry → ℕ → Type 0 };

    /// What the step does: a relation of the call, the caller's number, the value before, the answer and the value after.
    ghost does: { Self → ℕ → B → Self.Answer → B → Type 0 };

    /// Makes the step on the value, for the caller `by`. It adds entries by this caller alone, and gives at most one
    /// caller number.
    fn act(self, by: u64, state: &mut B) -> Self::Answer
        requires { needs self by (B.entries state.old) (B.caller_count state.old) }
        ensures does { does self by state.old result state.new }
        ensures grows { GrownBy B.owner by (B.entries state.old) (B.entries state.new) }
        ensures counts { GivesAtMostOne (B.caller_count state.old) (B.caller_count state.new) }
        ensures fixed { B.fixed state.new ≡ B.fixed state.old };

    /// What the step needs lasts: it holds of every history that begins with this one and of every greater count.
    ghost lasts: { (c : Self) (by : ℕ) (xs ys : List B.Entry) (n m : ℕ) → needs c by xs n → IsPrefix xs ys → n ≤ m → needs c by ys m };
}
