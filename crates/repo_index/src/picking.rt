ghost use Rattle.std.specs.Prelude.{◌≡◌, ◌&&◌, map, nat_le, take, IfOk};
ghost use Rattle.repo_index.specs.Index.{kept_seen, picked};
ghost use Rattle.set_hits.specs.Places.{has};

use impact_set::ImpactSet;
use osv_prim::Memory;
use std::alloc::Global;
use std::sync::Arc;

/// The indexes from `start` on, each once, of advisories of which a set has the commit with this number: the
/// first `most`. It looks at no set behind the last of these.
pub(crate) fn picked(
    alloc: Global,
    kept: &[(u32, Arc<ImpactSet>)],
    number: u32,
    start: usize,
    most: usize,
) -> Result<Vec<u32>, Memory>
    ensures { IfOk result (λ v. v.items ≡ take most (picked number start (map kept_seen kept.now))) }
{
    let mut indexes = Vec::with_capacity(alloc, most.min(kept.len()))?;
    let mut next = start;
    for one in kept {
        if indexes.len() >= most {
            return Ok(indexes);
        }
        if is_next(one, number, next) {
            indexes.push(one.0)?;
            next = one.0 as usize + 1;
        }
    }
    Ok(indexes)
}

// The set has the commit, and its advisory's index is this one or behind it.
fn is_next(one: &(u32, Arc<ImpactSet>), number: u32, next: usize) -> bool
    ensures { result ≡ (nat_le next (kept_seen one.now).0 && has (kept_seen one.now).1 number) }
{
    next <= one.0 as usize && has(&one.1, number)
}

fn has(set: &ImpactSet, number: u32) -> bool
    ensures { result ≡ has set.now number }
{
    number < set.covers() && set.has(number)
}
