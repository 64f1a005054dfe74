ghost use Rattle.std.specs.Prelude.{◌≡◌, ◌<◌, ◌++◌, ◌∷◌, [], OnOk, vec_len, vec_capacity};

use osv_prim::Memory;
use session_model::Sign;

/// The points and the signs of a session so far, one of each for each request that was carried out.
#[derive(Drop)]
pub(crate) struct Marks {
    pub(crate) points: Vec<u64>,
    pub(crate) signs: Vec<Sign>,
}

/// Makes room for one more of each.
pub(crate) fn make_room(marks: &mut Marks) -> Result<(), Memory>
    ensures points { marks.new.points.items ≡ marks.old.points.items }
    ensures signs { marks.new.signs.items ≡ marks.old.signs.items }
    ensures room_for_point { OnOk result (vec_len marks.new.points < vec_capacity marks.new.points) }
    ensures room_for_sign { OnOk result (vec_len marks.new.signs < vec_capacity marks.new.signs) }
{
    marks.points.reserve(1)?;
    marks.signs.reserve(1)?;
    Ok(())
}

/// Puts a point and its sign into room that is there.
pub(crate) fn mark(marks: &mut Marks, point: u64, sign: Sign)
    requires point { vec_len marks.old.points < vec_capacity marks.old.points }
    requires sign { vec_len marks.old.signs < vec_capacity marks.old.signs }
    ensures points { marks.new.points.items ≡ marks.old.points.items ++ point ∷ [] }
    ensures signs { marks.new.signs.items ≡ marks.old.signs.items ++ sign ∷ [] }
{
    match marks.points.push(point) {
        Ok(()) => {}
        Err(_) => unreachable!(),
    }
    match marks.signs.push(sign) {
        Ok(()) => {}
        Err(_) => unreachable!(),
    }
}
