//! Laws of the definitions, each the contract of a function that does nothing.

ghost use Rattle.std.specs.Prelude.{◌≡◌, ◌<◌, ◌≤◌, ℕ, List, Option, None, true, length, flat_map};
ghost use Rattle.osv_prim.specs.declared.subject.Subject.{Subject};
ghost use Rattle.evaluate.specs.Hits.{hits};
ghost use Rattle.history.specs.declared.past.Past.{Past};
ghost use Rattle.history.specs.Prefixes.{advisories, graphs};
ghost use Rattle.impact_job.specs.Order.{Ascend};
ghost use Rattle.snapshot.specs.Pages.{Page, page, hits_above};
ghost use Rattle.snapshot.specs.Walks.{IsWalk, found_in};

/// Pages of one query that go on above the last id of the one before come to all hits, ascending and so
/// each id once; and a page that says that there are more isn't empty.
pub fn pages_join()
    ensures walk { (p : List Past) (subject : Subject) (size : ℕ) → 1 ≤ size → (after : Option (List ℕ)) (pages : List Page) → IsWalk p subject size after pages → flat_map found_in pages ≡ hits_above p subject after }
    ensures all { (p : List Past) (subject : Subject) → hits_above p subject None ≡ hits (advisories p) (graphs p) subject }
    ensures ascending { (p : List Past) (subject : Subject) (after : Option (List ℕ)) → Ascend (hits_above p subject after) }
    ensures not_empty { (p : List Past) (subject : Subject) (size : ℕ) → 1 ≤ size → (after : Option (List ℕ)) → (page p subject after size).more ≡ true → 0 < length (page p subject after size).found }
{}
