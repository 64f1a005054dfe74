//! Laws of the machine, each the contract of a function that does nothing.

ghost use Rattle.std.specs.Prelude.{◌≡◌, ◌<◌, ℕ, List, Option};
ghost use Rattle.osv_prim.specs.declared.subject.Subject.{Subject};
ghost use Rattle.schedule.specs.declared.step.Step.{Step};
ghost use Rattle.schedule.specs.declared.step.Answer.{Answer};
ghost use Rattle.schedule.specs.Machine.{Machine, Plays, DoesLook};
ghost use Rattle.schedule.specs.Alike.{IsSameAnswer};

/// Two lists of steps that leave the same history leave the same answers to every query: whoever made the
/// steps, in whatever order jobs were taken, done and given back, and whether a build is under way. The
/// books have the same settings, and each query is one of a caller that has a number.
pub fn a_history_answers()
    ensures { (one other : List Step) (s u m n : Machine) (answers more : List Answer) → Plays one s answers m → Plays other u more n
        → m.book.settings ≡ n.book.settings → m.book.history ≡ n.book.history
        → (by me : ℕ) (subject : Subject) (named : Option ℕ) (after : Option (List ℕ)) (a b : Answer) (t v : Machine) → by < m.book.callers → me < n.book.callers
        → DoesLook by subject named after m a t → DoesLook me subject named after n b v → IsSameAnswer a b }
{}
