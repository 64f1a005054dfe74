//! Laws of the steps, each the contract of a function that does nothing.

ghost use mathlib.Core.List.{IsPrefix};
ghost use Rattle.std.specs.Prelude.{◌≡◌, ◌+◌, ◌<◌, ◌≤◌, ℕ, List, length, Bool, true, false, Result, Ok, Err, Some, None};
ghost use Rattle.std.specs.List.{list_any};
ghost use Rattle.osv_prim.specs.declared.memory.Memory.{Memory};
ghost use Rattle.osv_prim.specs.declared.oid.CommitRow.{CommitRow};
ghost use Rattle.osv_prim.specs.Graphs as of_rows;
ghost use Rattle.osv_record.specs.Advisories.{Advisory};
ghost use Rattle.history.specs.declared.past.Past.TheVariants.{Import, Publish};
ghost use Rattle.history.specs.Entries.{History, imports, newest};
ghost use Rattle.history.specs.Conditions.{IsOfVersion};
ghost use Rattle.book_model.specs.declared.answers.CallersSpent.{CallersSpent};
ghost use Rattle.book_model.specs.declared.answers.ImportFault.{ImportFault};
ghost use Rattle.book_model.specs.declared.answers.GrowFault.{GrowFault};
ghost use Rattle.book_model.specs.declared.answers.Pulled.{Pulled};
ghost use Rattle.book_model.specs.declared.answers.Taken.{Taken};
ghost use Rattle.book_model.specs.declared.answers.Newest.{Newest};
ghost use Rattle.book_model.specs.declared.answers.Kept.{Kept};
ghost use Rattle.history.specs.declared.past.Past.{Past};
ghost use Rattle.book_model.specs.declared.answers.Progress.{Progress};
ghost use Rattle.book_model.specs.declared.answers.Progress.TheVariants as progress;
ghost use Rattle.book_model.specs.declared.answers.Strange.{Strange};
ghost use Rattle.book_model.specs.declared.answers.Pulled.TheVariants as pulled;
ghost use Rattle.book_model.specs.State.{Build, State, is_out, cells_in};
ghost use Rattle.book_model.specs.Jobs.{JobName, Outcome, owner};
ghost use Rattle.book_model.specs.Steps.{Enrols, Imports, CountsImports, ShowsRepo, Grows, Looks, GoesOut, Pulls, Takes, Finishes, GivesBack};
ghost use Rattle.book_model.specs.Conditions.{MayCall, MayGrow, MayPull, MayFinish, MayGiveBack};
ghost use Rattle.book_model.specs.Sound.{IsSound, Keeps};
ghost use Rattle.book_model.specs.Desk.{Caller, IsEvent, AddsOwn, AddsNone};

/// Every step keeps a sound state: its history legal and within the limit, its entries by numbers that
/// were given, and the build that is open one whose publication may come. Jobs stand here for their
/// names.
pub fn a_state_stays_sound()
    ensures enrol { (old new : State) (answer : Result ℕ CallersSpent) → IsSound old → Enrols old answer new → IsSound new }
    ensures import { (by : ℕ) (advisory : Advisory) (old new : State) (answer : Result ℕ ImportFault) → by < old.callers → IsSound old → Imports by advisory old answer new → IsSound new }
    ensures grow { (by : ℕ) (key : List ℕ) (version : ℕ) (rows : List CommitRow) (old new : State) (answer : Result ℕ GrowFault) → by < old.callers → of_rows.IsLegal rows → IsOfVersion key version rows old.history → IsSound old → Grows by key version rows old answer new → IsSound new }
    ensures pull { (by goal : ℕ) (old new : State) (answer : Result (Pulled JobName) Memory) → by < old.callers → goal ≤ length (imports old.history) → IsSound old → Pulls (λ n. n) (λ n b p. Unit {0}) by goal old answer new → IsSound new }
    ensures take { (by : ℕ) (old new : State) (answer : Result (Taken JobName) Memory) → by < old.callers → IsSound old → Takes (λ n. n) (λ n b p. Unit {0}) by old answer new → IsSound new }
    ensures finish { (by : ℕ) (done : Outcome) (old new : State) (answer : Result Progress Strange) → by < old.callers → list_any is_out done.cells ≡ false → IsSound old → Finishes by done old answer new → IsSound new }
    ensures give_back { (by : ℕ) (job : JobName) (old new : State) (answer : Result (Unit {0}) Strange) → IsSound old → GivesBack by job old answer new → IsSound new }
{}

/// Every step only adds entries at the end, by its caller, gives at most one number, and leaves the
/// settings.
pub fn steps_only_add()
    ensures enrol { (by : ℕ) (old new : State) (answer : Result ℕ CallersSpent) → Enrols old answer new → Keeps by old new }
    ensures import { (by : ℕ) (advisory : Advisory) (old new : State) (answer : Result ℕ ImportFault) → Imports by advisory old answer new → Keeps by old new }
    ensures grow { (by : ℕ) (key : List ℕ) (version : ℕ) (rows : List CommitRow) (old new : State) (answer : Result ℕ GrowFault) → Grows by key version rows old answer new → Keeps by old new }
    ensures pull { (by goal : ℕ) (old new : State) (answer : Result (Pulled JobName) Memory) → Pulls (λ n. n) (λ n b p. Unit {0}) by goal old answer new → Keeps by old new }
    ensures take { (by : ℕ) (old new : State) (answer : Result (Taken JobName) Memory) → Takes (λ n. n) (λ n b p. Unit {0}) by old answer new → Keeps by old new }
    ensures finish { (by : ℕ) (done : Outcome) (old new : State) (answer : Result Progress Strange) → Finishes by done old answer new → Keeps by old new }
    ensures give_back { (by : ℕ) (job : JobName) (old new : State) (answer : Result (Unit {0}) Strange) → GivesBack by job old answer new → Keeps by old new }
{}

/// What a call needs lasts: it holds of every history that begins with this one, and of every greater
/// count of callers. Jobs stand here for their names, and `holds` is any test of what they hold.
pub fn conditions_last()
    ensures call { (by : ℕ) (a h : History) (n m : ℕ) → MayCall by a n → IsPrefix a h → n ≤ m → MayCall by h m }
    ensures grow { (key : List ℕ) (version : ℕ) (rows : List CommitRow) (by : ℕ) (a h : History) (n m : ℕ) → MayGrow key version rows by a n → IsPrefix a h → n ≤ m → MayGrow key version rows by h m }
    ensures pull { (goal by : ℕ) (a h : History) (n m : ℕ) → MayPull goal by a n → IsPrefix a h → n ≤ m → MayPull goal by h m }
    ensures finish { (holds : Outcome → List Past → List Past → Bool) (done : Outcome) (by : ℕ) (a h : History) (n m : ℕ) → MayFinish (λ o. o) (λ o b p. holds o b p ≡ true) done by a n → IsPrefix a h → n ≤ m → MayFinish (λ o. o) (λ o b p. holds o b p ≡ true) done by h m }
    ensures give_back { (holds : JobName → List Past → List Past → Bool) (job : JobName) (by : ℕ) (a h : History) (n m : ℕ) → MayGiveBack (λ j. j) (λ j b p. holds j b p ≡ true) job by a n → IsPrefix a h → n ≤ m → MayGiveBack (λ j. j) (λ j b p. holds j b p ≡ true) job by h m }
{}

/// What a call adds to its caller's own entries: that of which its answer tells.
pub fn calls_add_what_they_answer()
    ensures import { (advisory : Advisory) (place : ℕ) (old new : Caller) → IsEvent (λ s t. Imports old.me advisory s (Ok place) t) old new → AddsOwn (Import old.me advisory) place old new }
    ensures publish { (done : Outcome) (entry snapshot : ℕ) (old new : Caller) → IsEvent (λ s t. Finishes old.me done s (Ok (progress.Published entry snapshot)) t) old new → AddsOwn (Publish old.me done.job.upto) entry old new × (newest new.front ≡ snapshot) }
{}

/// Calls that add nothing to their caller's own entries.
pub fn other_calls_add_nothing()
    ensures refused_import { (advisory : Advisory) (e : ImportFault) (old new : Caller) → IsEvent (λ s t. Imports old.me advisory s (Err e) t) old new → AddsNone old new }
    ensures refused_grow { (key : List ℕ) (version : ℕ) (rows : List CommitRow) (e : GrowFault) (old new : Caller) → IsEvent (λ s t. Grows old.me key version rows s (Err e) t) old new → AddsNone old new }
    ensures pull { (goal : ℕ) (answer : Result (Pulled JobName) Memory) (old new : Caller) → IsEvent (λ s t. Pulls (λ n. n) (λ n b p. Unit {0}) old.me goal s answer t) old new → AddsNone old new }
    ensures take { (answer : Result (Taken JobName) Memory) (old new : Caller) → IsEvent (λ s t. Takes (λ n. n) (λ n b p. Unit {0}) old.me s answer t) old new → AddsNone old new }
    ensures going { (done : Outcome) (old new : Caller) → IsEvent (λ s t. Finishes old.me done s (Ok progress.Going) t) old new → AddsNone old new }
    ensures strange { (done : Outcome) (e : Strange) (old new : Caller) → IsEvent (λ s t. Finishes old.me done s (Err e) t) old new → AddsNone old new }
    ensures give_back { (job : JobName) (answer : Result (Unit {0}) Strange) (old new : Caller) → IsEvent (λ s t. GivesBack old.me job s answer t) old new → AddsNone old new }
{}

/// Which jobs are out, and to whom.
pub fn jobs_are_out_to_one_caller()
    ensures some { (by goal out : ℕ) (old new : State) → IsSound old → Pulls (λ n. n) (λ n b p. Unit {0}) by goal old (Ok (pulled.Out out)) new → 1 ≤ out }
    ensures never { (by goal out : ℕ) (old new : State) → IsSound old → list_any is_out (cells_in old.build) ≡ false → Pulls (λ n. n) (λ n b p. Unit {0}) by goal old (Ok (pulled.Out out)) new → ⊥ }
    ensures owned { (by : ℕ) (old : State) (b : Build) (job : JobName) (new : State) → GoesOut (λ n. n) (λ n b p. Unit {0}) by old b job new → owner new job ≡ Some by }
    ensures spent { (s : State) (job : JobName) → job.build ≤ newest s.history → owner s job ≡ None }
{}

/// Calls that only look. A snapshot stands here for its imports, and a graph for its rows.
pub fn looking_adds_nothing()
    ensures imports { (count : ℕ) (old new : Caller) → IsEvent (λ s t. CountsImports s count t) old new → AddsNone old new }
    ensures repo { (key : List ℕ) (answer : Result (ℕ × List CommitRow) Memory) (old new : Caller) → IsEvent (λ s t. ShowsRepo (λ g. g) key s answer t) old new → AddsNone old new }
    ensures look { (numbers : List ℕ) (answer : Result (Newest (List Past)) Memory) (found : List (Kept (List Past))) (old new : Caller) → IsEvent (λ s t. Looks (λ x p. x ≡ p) numbers s answer found t) old new → AddsNone old new }
{}
