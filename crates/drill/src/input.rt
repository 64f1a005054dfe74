ghost use Rattle.std.specs.Prelude.{◌≡◌, ◌<◌, IfOk};
ghost use Rattle.drill.specs.Drilled.{IsDrawn};

use drill_input::{Draws, advisories, asked, commits};
use osv_prim::{CommitRow, Memory, Oid};
use osv_record::Record;
use std::alloc::Global;
use std::sync::Arc;

/// What a drill imports, and the commits that it asks for.
#[derive(Drop)]
pub(crate) struct Input {
    pub(crate) rows: Vec<CommitRow>,
    pub(crate) advisories: Vec<Arc<Record>>,
    pub(crate) asked: Vec<Oid>,
}

/// What is drawn from the seed, one behind the other.
pub(crate) fn drawn(alloc: Global, seed: u64, size: u32) -> Result<Input, Memory>
    requires { 0 < size }
    ensures { IfOk result (IsDrawn seed size) }
{
    let mut draws = Draws::from_seed(seed);
    let rows = commits(alloc, &mut draws, size)?;
    let advisories = advisories(alloc, &mut draws, size)?;
    let asked = asked(alloc, &mut draws, size)?;
    Ok(Input {
        rows,
        advisories,
        asked,
    })
}
