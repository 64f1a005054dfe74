//! Laws of the definitions, each the contract of a function that does nothing.

ghost use Rattle.std.specs.Prelude.{◌≡◌, ◌↔◌, ◌+◌, ◌-◌, ◌*◌, ◌<◌, ◌≤◌, ℕ, List, [], ◌∷◌, ◌++◌, length, map, take, drop, true, false, Some, None, if◌then◌else◌, nat_eq};
ghost use mathlib.Core.List.{IsPrefix};
ghost use Rattle.std.specs.List.{list_any, AllByRecursion};
ghost use Rattle.std.specs.Str.{bytes_eq};
ghost use Rattle.osv_record.specs.Advisories.{Advisory};
ghost use Rattle.osv_prim.specs.declared.oid.CommitRow.{CommitRow};
ghost use Rattle.osv_prim.specs.Graphs.{joined};
ghost use Rattle.osv_prim.specs.Graphs as of_rows;
ghost use Rattle.osv_record.specs.Imports as counting;
ghost use Rattle.history.specs.declared.past.Past.{Past};
ghost use Rattle.history.specs.declared.past.Past.TheVariants.{Import, Grow};
ghost use Rattle.history.specs.Entries.{History, caller, imports, uptos, newest, upto_of, snap, added, IsKept, IsGone, oldest_kept, weight, entry_weight, own_from, own, by_caller, IsOwn};
ghost use Rattle.history.specs.Prefixes.{advisories, records, grown, rows_of, grows, graph, keys, graphs, graphs_from};
ghost use Rattle.history.specs.Lookups.{record_of, has_import, has_grow};
ghost use Rattle.evaluate.specs.Hits.{graph_of};
ghost use Rattle.history.specs.Pieces.{GitRange, repo_of, kind_of};
ghost use Rattle.history.specs.declared.piece_kind.PieceKind.TheVariants.{Extend, Carry};
ghost use Rattle.history.specs.Conditions.{IsOfVersion, IsWithin};
ghost use Rattle.history.specs.Legality.{marks, IsLegal, IsLegalBySentences, MayCome, Extends};

/// What a history comes to when further entries follow it.
pub fn a_history_goes_on()
    ensures imports { (a b : History) → imports (a ++ b) ≡ imports a ++ imports b }
    ensures uptos { (a b : History) → uptos (a ++ b) ≡ uptos a ++ uptos b }
    ensures newest { (a b : History) → newest (a ++ b) ≡ newest a + newest b }
    ensures weight { (a b : History) → weight (a ++ b) ≡ weight a + weight b }
    ensures own { (me : ℕ) (a b : History) → own me (a ++ b) ≡ own me a ++ own_from (length a) me b }
{}

/// What holds of a front holds of the history, so conditions that speak of it last.
pub fn a_front_stays()
    ensures imports { (a h : History) → IsPrefix a h → IsPrefix (imports a) (imports h) }
    ensures newest { (a h : History) → IsPrefix a h → newest a ≤ newest h }
    ensures first { (a b : History) (k : ℕ) → k ≤ length (imports a) → take k (imports (a ++ b)) ≡ take k (imports a) }
    ensures grows { (a h : List Past) (key : List ℕ) → IsPrefix a h → grows a key ≤ grows h key }
    ensures grown { (a h : List Past) (key : List ℕ) (version : ℕ) → IsPrefix a h → version ≤ grows a key → take version (grown h key) ≡ take version (grown a key) }
    ensures legal { (a h : History) → IsPrefix a h → IsLegal h → IsLegal a }
{}

/// Snapshots of a history that goes on.
pub fn a_snapshot_stays_what_it_is()
    ensures snap { (a b : History) (s : ℕ) → IsLegal a → s ≤ newest a → snap (a ++ b) s ≡ snap a s }
    ensures upto { (h : History) (s : ℕ) → IsLegal h → s ≤ newest h → upto_of h s ≤ length (imports h) }
    ensures order { (h : History) (s t : ℕ) → IsLegal h → s ≤ t → t ≤ newest h → IsPrefix (snap h s) (snap h t) }
    ensures added { (h : History) (s upto : ℕ) → upto_of h s ≤ upto → take upto (imports h) ≡ snap h s ++ added h s upto }
    ensures gone { (keep : ℕ) (a b : History) (s : ℕ) → IsGone keep a s → IsGone keep (a ++ b) s }
    ensures kept { (keep : ℕ) (h : History) (s : ℕ) → IsKept keep h s ↔ ((oldest_kept keep h ≤ s) × (s ≤ newest h)) }
{}

/// How many publications and imports a history of some weight has.
pub fn few_entries_of_little_weight()
    ensures imports { (h : History) → 64 * length (imports h) ≤ weight h }
    ensures publications { (h : History) → IsLegal h → newest h ≤ length (imports h) }
{}

/// A caller's entries, with their places.
pub fn own_entries()
    ensures mine { (me : ℕ) (h : History) (e : Past) → nat_eq (caller e) me ≡ true → own me (h ++ e ∷ []) ≡ own me h ++ (length h, e) ∷ [] }
    ensures others { (me : ℕ) (h : History) (e : Past) → nat_eq (caller e) me ≡ false → own me (h ++ e ∷ []) ≡ own me h }
    ensures places { (me : ℕ) (h : History) → AllByRecursion (IsOwn me h) (own me h) }
    ensures entries { (me : ℕ) (h : History) → map (λ x. x.1) (own me h) ≡ by_caller me h }
    ensures same { (me : ℕ) (a h : History) → IsPrefix a h → by_caller me h ≡ by_caller me a → own me h ≡ own me a }
{}

/// The marks by which a publication is legal.
pub fn marks_only_grow()
    ensures marks { (a b : History) → IsLegal (a ++ b) → ((marks a).count ≤ (marks (a ++ b)).count) × ((marks a).last ≤ (marks (a ++ b)).last) × ((marks a).before ≤ (marks (a ++ b)).before) }
    ensures count { (h : History) → (marks h).count ≡ length (imports h) }
    ensures last { (h : History) → (marks h).last ≡ upto_of h (newest h) }
{}

/// A history is legal exactly where the sentences hold of it.
pub fn legal_histories()
    ensures sentences { (h : History) → IsLegal h ↔ IsLegalBySentences h }
    ensures push { (h : History) (e : Past) → IsLegal h → MayCome h e → IsLegal (h ++ e ∷ []) }
    ensures came { (h : History) (e : Past) (later : History) → IsLegal (h ++ e ∷ later) → MayCome h e }
    ensures graphs { (h : History) (key : List ℕ) → IsLegal h → of_rows.IsLegal (graph h key) }
    ensures extended { (h : History) (by : ℕ) (key : List ℕ) (rows : List CommitRow) → Extends (graph h key) rows → graph (h ++ Grow by key rows ∷ []) key ≡ graph h key ++ rows }
{}

/// The imports that count, from those of a front and what came after it.
pub fn records_of_a_front_and_of_what_was_added()
    ensures placed { (b a : List Past) → records (b ++ a) ≡ counting.records_from (records b) (advisories a) }
    ensures both { (b a : List Past) → records (b ++ a) ≡ counting.records (records b ++ advisories a) }
    ensures parts { (b a : List Past) → records (b ++ a) ≡ counting.records (records b ++ records a) }
{}

/// Graphs, from those of a front and what came after it.
pub fn graphs_of_a_front_and_of_what_was_added()
    ensures is { (p : List Past) (key : List ℕ) → graph p key ≡ joined [] (rows_of p key) }
    ensures graph { (b a : List Past) (key : List ℕ) → graph (b ++ a) key ≡ joined (graph b key) (rows_of a key) }
    ensures graphs { (b a : List Past) → graphs (b ++ a) ≡ graphs_from (graphs b) a }
    ensures keys { (b a : List Past) → IsPrefix (keys b) (keys (b ++ a)) }
    ensures count { (b a : List Past) (key : List ℕ) → grows (b ++ a) key ≡ grows b key + grows a key }
{}

/// Publications change no advisory and no graph.
pub fn imports_alone_decide()
    ensures records { (h : History) → records (imports h) ≡ records h }
    ensures graph { (h : History) (key : List ℕ) → graph (imports h) key ≡ graph h key }
    ensures graphs { (h : History) → graphs (imports h) ≡ graphs h }
{}

/// What one id or one repository has, and what later imports leave as it was.
pub fn others_stay_as_they_were()
    ensures import { (p : List Past) (by : ℕ) (r : Advisory) (id : List ℕ) → record_of (p ++ Import by r ∷ []) id ≡ (if bytes_eq id r.id then Some r else record_of p id) }
    ensures record { (b a : List Past) (id : List ℕ) → has_import a id ≡ false → record_of (b ++ a) id ≡ record_of b id }
    ensures graph { (b a : List Past) (key : List ℕ) → has_grow a key ≡ false → graph (b ++ a) key ≡ graph b key }
    ensures keys { (p : List Past) (key : List ℕ) → list_any (bytes_eq key) (keys p) ≡ has_grow p key }
    ensures found { (p : List Past) (key : List ℕ) → graph_of (graphs p) key ≡ (if has_grow p key then Some (graph p key) else None) }
{}

/// What a publication by change stands on: a snapshot, and the imports that were added to it.
pub fn a_publication_by_change()
    ensures records { (h : History) (s upto : ℕ) → upto_of h s ≤ upto → records (take upto (imports h)) ≡ counting.records_from (records (snap h s)) (advisories (added h s upto)) }
    ensures graph { (h : History) (s upto : ℕ) → upto_of h s ≤ upto → (key : List ℕ) → graph (take upto (imports h)) key ≡ joined (graph (snap h s) key) (rows_of (added h s upto) key) }
    ensures graphs { (h : History) (s upto : ℕ) → upto_of h s ≤ upto → graphs (take upto (imports h)) ≡ graphs_from (graphs (snap h s)) (added h s upto) }
{}

/// Conditions on a history last, and what they give where an entry is put at its end.
pub fn conditions_last()
    ensures version { (key : List ℕ) (version : ℕ) (rows : List CommitRow) (a h : List Past) → IsPrefix a h → IsOfVersion key version rows a → IsOfVersion key version rows h }
    ensures within { (build upto : ℕ) (a h : History) → IsPrefix a h → IsWithin build upto a → IsWithin build upto h }
    ensures base { (build upto : ℕ) (a h : History) → IsPrefix a h → IsWithin build upto a → snap h (build - 1) ≡ snap a (build - 1) }
    ensures snap { (a h : History) (s : ℕ) → IsPrefix a h → IsLegal a → s ≤ newest a → snap h s ≡ snap a s }
    ensures first { (a h : History) (upto : ℕ) → IsPrefix a h → upto ≤ length (imports a) → take upto (imports h) ≡ take upto (imports a) }
    ensures now { (key : List ℕ) (rows : List CommitRow) (h : List Past) → IsOfVersion key (grows h key) rows h → IsPrefix (graph h key) rows }
    ensures new_rows { (g rows : List CommitRow) → of_rows.IsLegal rows → IsPrefix g rows → Extends g (drop (length g) rows) }
    ensures weight { (h : History) (e : Past) → weight (h ++ e ∷ []) ≡ weight h + entry_weight e }
{}

/// What a piece's kind says: a set that is carried on is of the same import and the same graph, and one
/// that is extended of the same import.
pub fn pieces_are_of_what_stayed()
    ensures carry { (b came : List Past) (x : GitRange) → kind_of came x ≡ Carry → (record_of (b ++ came) x.advisory.id ≡ record_of b x.advisory.id) × (graph (b ++ came) (repo_of x) ≡ graph b (repo_of x)) }
    ensures extend { (b came : List Past) (x : GitRange) → kind_of came x ≡ Extend → record_of (b ++ came) x.advisory.id ≡ record_of b x.advisory.id }
{}
