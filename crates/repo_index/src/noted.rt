ghost use Rattle.std.specs.Prelude.{◌≡◌, ◌++◌, ◌∷◌, [], ◌^◌, ◌<◌, ℕ, List, Some, IfOk, OnOk, length, map};
ghost use Rattle.std.specs.Arc.{arc_value};
ghost use Rattle.std.specs.List.{AllZip};
ghost use Rattle.osv_prim.specs.Graphs.{number_of};
ghost use Rattle.history.specs.declared.past.Past.{Past};
ghost use Rattle.history.specs.Prefixes.{graph, records};
ghost use Rattle.impact_job.specs.Tables.{AreSetsOf};
ghost use Rattle.repo_index.specs.Index.{AscendFrom, all_seen, beside, is_noted};
ghost use Rattle.repo_index.specs.Listing.{hits_on, passes_from};
ghost use Rattle.repo_index.specs.Numbers.{AreNumbersOf};

use crate::lists::sets_at;
use impact_set::ImpactSet;
use osv_prim::{List, Memory};
use std::alloc::Global;
use std::sync::Arc;

/// The sets of advisories' GIT ranges under the numbers of their repositories, each with its advisory's index.
/// No advisory is read.
pub(crate) fn noted_of(
    alloc: Global,
    own: &[List<u32>],
    sets: &[List<Arc<ImpactSet>>],
) -> Result<Vec<(u32, (u32, Arc<ImpactSet>))>, Memory>
    requires { length own.now < 2 ^ 32 }
    ensures hits { IfOk result (λ noted. (p : List Past) (keys : List (List ℕ)) → AllZip (AreNumbersOf keys) (records p) own.now → AllZip (AreSetsOf p) (records p) sets.now
        → (repo commit : List ℕ) (number i : ℕ) → number_of (graph p repo) commit ≡ Some number → is_noted keys (all_seen noted.items) repo number i ≡ passes_from (hits_on p repo commit) 0 (records p) i) }
    ensures ascend { IfOk result (λ noted. AscendFrom 0 (map (λ e. e.1) (all_seen noted.items))) }
{
    let mut noted = Vec::new(alloc);
    for (index, numbers) in own.iter().enumerate() {
        let index = index as u32;
        note(&mut noted, numbers.as_slice(), sets_at(sets, index), index)?;
    }
    Ok(noted)
}

// Notes the sets of one advisory.
fn note(
    noted: &mut Vec<(u32, (u32, Arc<ImpactSet>))>,
    numbers: &[u32],
    sets: &[Arc<ImpactSet>],
    index: u32,
) -> Result<(), Memory>
    ensures { OnOk result (all_seen noted.new.items ≡ all_seen noted.old.items ++ beside index numbers.now (map (λ a. arc_value a) sets.now)) }
{
    let mut rest = sets;
    for number in numbers {
        let Some((set, later)) = rest.split_first() else {
            return Ok(());
        };
        add(noted, *number, set, index)?;
        rest = later;
    }
    Ok(())
}

fn add(
    noted: &mut Vec<(u32, (u32, Arc<ImpactSet>))>,
    number: u32,
    set: &Arc<ImpactSet>,
    index: u32,
) -> Result<(), Memory>
    ensures { OnOk result (all_seen noted.new.items ≡ all_seen noted.old.items ++ (number, (index, arc_value set.now)) ∷ []) }
{
    noted.push((number, (index, Arc::try_clone(set)?)))?;
    Ok(())
}
