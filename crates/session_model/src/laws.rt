//! Laws of sessions, each the contract of a function that does nothing.

ghost use Rattle.std.specs.Prelude.{◌≡◌, ◌≤◌, ℕ, List, Option, length};
ghost use Rattle.std.specs.List.{sum_by};
ghost use Rattle.settings.specs.declared.Settings.{Settings};
ghost use Rattle.history.specs.Legality.{IsLegal};
ghost use Rattle.book_model.specs.Desk.{Caller, saturating_sum};
ghost use Rattle.session_model.specs.Alone.{IsAlone, StaysApart};
ghost use Rattle.session_model.specs.Counts.{Rises, busy_of, turns_of, looks_of, out_of};
ghost use Rattle.session_model.specs.Owned.{OwnEntries};
ghost use Rattle.session_model.specs.Runs.{Done, Goes, Runs, IsAtPoints, last_point};
ghost use Rattle.session_model.specs.Sessions.{IsRun, Session};
ghost use Rattle.session_model.specs.declared.end.End.{End};
ghost use Rattle.session_model.specs.declared.sign.Sign.{Sign};

/// Requests that were carried out one after another are answered by their points: each over the history
/// at the end up to its point, beside the history up to the point before. Points never fall, and the
/// history ends at the last one.
pub fn a_run_is_told_by_its_points()
    ensures points { (old new : Caller) (done : List Done) → Runs old done new → IsAtPoints old.settings old.me new.front (length old.front) done }
    ensures last { (old new : Caller) (done : List Done) → Runs old done new → length new.front ≡ last_point (length old.front) done }
    ensures goes { (old new : Caller) (done : List Done) → IsLegal old.front → Runs old done new → Goes old new }
{}

/// Whatever signs say that others were at work or that the book was asked, the caller's counts show it:
/// each count rose by at least the sum over the signs, or stands at its last value. The numbers of jobs
/// that replies tell to be out are those that the caller was told.
pub fn signs_are_counted()
    ensures rises { (old new : Caller) (done : List Done) → Runs old done new
        → Rises (sum_by (λ d. busy_of d.sign) done) (sum_by (λ d. turns_of d.sign) done) (sum_by (λ d. looks_of d.sign) done) old new }
    ensures outs { (old new : Caller) (done : List Done) → old.outs ≤ 18446744073709551615 → Runs old done new → new.outs ≡ saturating_sum old.outs (sum_by (λ d. out_of d.sign) done) }
{}

/// The caller's own entries are the old ones and those of its requests, once each, in their order: of an
/// import that got 200 its entry, the last one before its point; of a publication at most two, from the
/// point before on and below its own; of all others none.
pub fn each_entry_is_of_one_request()
    ensures { (old new : Caller) (done : List Done) → Runs old done new → OwnEntries old new done }
{}

/// Where nobody else acts on the caller's book, no entry of others comes, a caller that has no job has none
/// at the end, and one that is alone is so at the end.
pub fn a_caller_alone_stays_so()
    ensures run { (old new : Caller) (done : List Done) → Runs old done new → StaysApart old new }
    ensures alone { (old new : Caller) (done : List Done) → IsAlone old → Runs old done new → IsAlone new }
    ensures session { (old new : Caller) (points : List ℕ) (signs : List Sign) → IsLegal old.front → IsRun old new points signs → StaysApart old new }
{}

/// A session is such a run to its desk, behind which at most one request found no memory.
pub fn a_session_is_a_run()
    ensures { (s : Settings) (old new : Caller) (text rest out out_now : Option (List ℕ)) (points : List ℕ) (signs : List Sign) (end : End) → Session s old new text rest out out_now points signs end → IsRun old new points signs }
{}
