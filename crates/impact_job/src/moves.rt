ghost use Rattle.std.specs.Prelude.{◌++◌, ◌∷◌, [], List, map, option_map, IfOk, OnOk};
ghost use Rattle.std.specs.Arc.{arc_value};
ghost use Rattle.std.specs.Option.{option_to_list};
ghost use Rattle.osv_record.specs.Advisories.{Advisory};
ghost use Rattle.osv_record.specs.Imports.{records_from};
ghost use Rattle.record_moves.specs.Moved.{IsMoved};
ghost use Rattle.impact_job.specs.Order.{Ascend};

use crate::split::split_at_id;
use osv_prim::Memory;
use osv_record::Record;
use record_moves::Moves;
use std::alloc::Global;
use std::sync::Arc;

/// Where the advisories of a base are once those that changed are merged with them. It takes 4 bytes for each
/// advisory of the base, and O(log n) comparisons for each that changed.
pub(crate) fn moves_of(
    alloc: Global,
    base: &[Arc<Record>],
    changed: &[&Arc<Record>],
) -> Result<Moves, Memory>
    ensures { Ascend (map (λ a. arc_value a) base.now) → Ascend (map (λ a. arc_value a.now) changed.now)
        → IfOk result (λ m. IsMoved m (map (λ a. arc_value a) base.now) (records_from (map (λ a. arc_value a) base.now) (map (λ a. arc_value a.now) changed.now))) }
{
    let mut moves = Moves::new(alloc);
    let mut rest = base;
    for record in changed {
        let parts = split_at_id(rest, record.id.as_str().as_bytes());
        moves.keep(parts.below.len())?;
        put_in_place(&mut moves, parts.found)?;
        rest = parts.above;
    }
    moves.keep(rest.len())?;
    Ok(moves)
}

// One that changed is added, in place of that with its id, where there is one.
fn put_in_place(moves: &mut Moves, found: Option<&Arc<Record>>) -> Result<(), Memory>
    ensures { (old new : List Advisory) (r : Advisory) → IsMoved moves.old old new
        → OnOk result (IsMoved moves.new (old ++ option_to_list (option_map (λ a. arc_value a.now) found.entry)) (new ++ r ∷ [])) }
{
    if found.is_some() {
        moves.drop_one()?;
    }
    moves.add()
}
