ghost use Rattle.std.specs.Prelude.{◌≡◌, ◌∷◌, [], IfOk};
ghost use Rattle.schedule.specs.Machine.{IsPlayed};

use book::Book;
use osv_prim::{Ledger, Memory, Steps};
use schedule::{Answer, Step, play};
use settings::Settings;
use std::alloc::Global;

/// Carries out one step.
pub(crate) fn one<L: Ledger>(
    alloc: Global,
    book: &mut Book,
    step: Step,
    settings: &Settings,
    steps: &mut Steps<L>,
) -> Result<Answer, Memory>
    requires { book.old.settings ≡ settings.now }
    ensures settings { book.new.settings ≡ book.old.settings }
    ensures played { IfOk result (λ a. IsPlayed (step ∷ []) book.old (a ∷ []) book.new) }
{
    let list = [step];
    let mut answers = play(alloc, book, list.as_slice(), settings, steps)?;
    match answers.pop() {
        Some(answer) => Ok(answer),
        None => Err(Memory),
    }
}
