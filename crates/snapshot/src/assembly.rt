ghost use Rattle.std.specs.Prelude.{◌≡◌, List, IfOk};
ghost use Rattle.history.specs.declared.past.Past.{Past};
ghost use Rattle.impact_job.specs.Tables.{IsFilledOf, filled_upto};
ghost use Rattle.snapshot.specs.Snapshots.{StandsFor, snapshot_upto};

use crate::snapshot::{Snapshot, of_tables};
use impact_job::{Filled, tables_of};
use osv_prim::Memory;
use std::alloc::Global;
use std::sync::Arc;

/// The snapshot of a plan whose pieces are done, over the snapshot on which the build stands. It shares the
/// advisories and graphs that the plan keeps, the sets, and the compiled ranges of advisories that stayed. Only memory can fail.
pub fn assemble(alloc: Global, base: &Snapshot, filled: &Filled) -> Result<Snapshot, Memory>
    requires { (b : List Past) × ((p : List Past) × (StandsFor base.now b × IsFilledOf filled.now b p)) }
    ensures stands { (b p : List Past) → StandsFor base.now b → IsFilledOf filled.now b p → IfOk result (λ s. StandsFor s p) }
    ensures upto { IfOk result (λ s. snapshot_upto s ≡ filled_upto filled.now) }
{
    let tables = tables_of(alloc, filled)?;
    of_tables(alloc, base, &filled.plan.moves, Arc::new(alloc, tables)?)
}
