//! Laws of the definitions, each the contract of a function that does nothing.

ghost use Rattle.std.specs.Prelude.{List, map, Contains, ◌↔◌};
ghost use Rattle.std.specs.List.Sorted.{IsStrictlySortedBy};
ghost use Rattle.std.specs.Ordering.{nat_cmp};
ghost use Rattle.std.specs.Cmp.Lexicographic.{slice_cmp};
ghost use Rattle.osv_record.specs.Advisories.{Advisory};
ghost use Rattle.osv_record.specs.Imports.{records, IsLastOfItsId};

/// The imports that count ascend strictly by their ids, and an advisory is among them exactly
/// where it is the last import of its id.
pub fn the_last_import_of_each_id_counts()
    ensures ascending { (imports : List Advisory) → IsStrictlySortedBy (slice_cmp nat_cmp) (map (λ r. r.id) (records imports)) }
    ensures exactly { (imports : List Advisory) (r : Advisory) → (Contains (records imports) r) ↔ (IsLastOfItsId imports r) }
{}
