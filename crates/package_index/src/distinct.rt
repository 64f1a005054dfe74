ghost use Rattle.std.specs.Prelude.{◌≡◌, true, Bool, OnOk};
ghost use Rattle.std.specs.List.{list_any};
ghost use Rattle.std.specs.List.Sorted.{IsStrictlySortedBy};

use osv_prim::Memory;

/// Sorts a list and keeps one of members that are equal. Where few are out of order that takes little more than
/// one comparison a member.
pub fn sort_distinct<T: Ord + Drop>(items: &mut Vec<T>) -> Result<(), Memory>
    ensures strictly { OnOk result (IsStrictlySortedBy T.cmp items.new.items) }
    ensures same { (test : T → Bool) → ((x y : T) → T.eq x y ≡ true → test x ≡ test y) → OnOk result (list_any test items.new.items ≡ list_any test items.old.items) }
{
    items.sort()?;
    items.dedup();
    Ok(())
}
