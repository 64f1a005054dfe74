ghost use Rattle.std.specs.Prelude.{◌≡◌, List, IfOk};
ghost use Rattle.history.specs.declared.past.Past.{Past};
ghost use Rattle.impact_job.specs.Tables.{IsPrefixOf, IsPlanOf, plan_upto};

use crate::by_repo::Graphs;
use crate::counts::counts_of;
use crate::latest::last_of_each_id;
use crate::merge::merged;
use crate::moves::moves_of;
use crate::prefix::Prefix;
use crate::repos::repos_of;
use crate::tables::Plan;
use crate::todo::todo_of;
use osv_prim::Memory;
use std::alloc::Global;
use std::sync::Arc;

/// The plan of a build. It takes one `Arc` more for each advisory of the base and for each of its sets that stays,
/// 8 bytes for each advisory, O(n log n) comparisons of ids for the added ones, and one look-up for each repository
/// and each Grow. It reads the entries of the advisories that changed, and where a Grow came those of all that have GIT
/// ranges, with a look-up for each of these; it reads no row. Only memory can fail.
pub fn plan(alloc: Global, prefix: &Prefix) -> Result<Plan, Memory>
    ensures plan { (b p : List Past) → IsPrefixOf prefix.now b p → IfOk result (λ x. IsPlanOf x b p) }
    ensures upto { IfOk result (λ x. plan_upto x ≡ prefix.now.upto) }
{
    let changed = last_of_each_id(alloc, prefix.added.as_slice())?;
    let records = merged(alloc, prefix.base.records.as_slice(), changed.as_slice())?;
    let moves = moves_of(alloc, prefix.base.records.as_slice(), changed.as_slice())?;
    let graphs = Graphs::of(alloc, prefix)?;
    let todo = todo_of(alloc, &prefix.base, changed.as_slice(), &graphs)?;
    let counts = counts_of(alloc, &prefix.base, changed.as_slice())?;
    let Graphs { all, .. } = graphs;
    let repos = repos_of(alloc, all)?;
    Ok(Plan {
        upto: prefix.upto,
        records: Arc::new(alloc, records)?,
        repos: Arc::new(alloc, repos)?,
        moves,
        counts,
        todo,
    })
}
