ghost use Rattle.std.specs.Prelude.{◌≡◌, ◌+◌, ◌*◌, ◌≤◌, ◌++◌, ◌∷◌, [], false, List, map, IfOk, OnOk, OnErr};
ghost use Rattle.std.specs.Arc.{arc_value};
ghost use Rattle.osv_prim.specs.declared.subject.Subject.{Subject};
ghost use Rattle.osv_record.specs.Advisories.{Advisory};
ghost use Rattle.evaluate.specs.Hits.{Repo, hit_ids, is_hit};
ghost use Rattle.evaluate.specs.Kept.{HoldsHits};
ghost use Rattle.evaluate.specs.Rows.{subject_rows};

use crate::by_subject::is_hit;
use commit_graph::Graph;
use osv_prim::{Id, Ledger, Memory, RepoKey, Steps, Subject};
use osv_record::Record;
use std::alloc::{AllocError, Global};
use std::collections::BTreeSet;
use std::sync::Arc;

/// The ids of the hits of imports that come one after another. No import is kept, so it holds no
/// more than the ids of the hits. Contracts see by `HoldsHits` which imports it was given.
#[derive(Drop)]
pub struct HitIds {
    ids: BTreeSet<Id>,
}

impl HitIds {
    /// The hits of no imports. It takes no memory.
    #[tactic(auto, unfolding(crate::specs::Kept::HoldsHits))]
    pub fn new(alloc: Global) -> HitIds
        ensures { (repos : List Repo) (subject : Subject) → HoldsHits repos subject [] result }
    {
        HitIds {
            ids: BTreeSet::new(alloc),
        }
    }

    /// One more import, which counts in place of an earlier one of its id. Only want of memory is
    /// refused, and changes nothing. It takes at most two graph steps for each row of the graph of each
    /// GIT range in entries of the asked package, and none where no commit is asked for.
    #[tactic(auto, unfolding(crate::specs::Kept::HoldsHits))]
    pub fn import<L: Ledger>(
        &mut self,
        alloc: Global,
        advisory: Record,
        repos: &[(RepoKey, Arc<Graph>)],
        subject: &Subject,
        steps: &mut Steps<L>,
    ) -> Result<(), Memory>
        ensures ok { OnOk result ((imports : List Advisory) → HoldsHits (map (λ g. (g.0, arc_value g.1)) repos.now) subject.now imports self.old
            → HoldsHits (map (λ g. (g.0, arc_value g.1)) repos.now) subject.now (imports ++ advisory ∷ []) self.new) }
        ensures err { OnErr result ((repos : List Repo) (subject : Subject) (imports : List Advisory) → HoldsHits repos subject imports self.old → HoldsHits repos subject imports self.new) }
        ensures steps { steps.new.graph ≤ steps.old.graph + 2 * subject_rows (map (λ g. (g.0, arc_value g.1)) repos.now) subject.now advisory }
        ensures records { steps.new.record_count ≡ steps.old.record_count }
    {
        if is_hit(alloc, &advisory, repos, subject, steps)? {
            let Record { id, .. } = advisory;
            self.ids.insert(id)?;
        } else {
            self.ids.remove(&advisory.id);
        }
        Ok(())
    }

    /// One more import with this id, of which it is known that it doesn't hit: an earlier one of its id
    /// counts no longer. It takes no memory.
    #[tactic(auto, unfolding(crate::specs::Kept::HoldsHits))]
    pub fn pass(&mut self, id: &Id)
        ensures { (repos : List Repo) (subject : Subject) (imports : List Advisory) (advisory : Advisory) → advisory.id ≡ id.now → is_hit repos subject advisory ≡ false
            → HoldsHits repos subject imports self.old → HoldsHits repos subject (imports ++ advisory ∷ []) self.new }
    {
        self.ids.remove(id);
    }

    /// The ids, ascending by their bytes. Only want of memory is refused.
    #[tactic(auto, unfolding(crate::specs::Kept::HoldsHits))]
    pub fn into_vec(self, alloc: Global) -> Result<Vec<Id>, AllocError>
        ensures { IfOk result (λ v. (repos : List Repo) (subject : Subject) (imports : List Advisory) → HoldsHits repos subject imports self → v.items ≡ hit_ids imports repos subject) }
    {
        ids_of(alloc, self.ids)
    }
}

fn ids_of(alloc: Global, ids: BTreeSet<Id>) -> Result<Vec<Id>, AllocError>
    ensures { IfOk result (λ v. v.items ≡ ids.keys) }
{
    ids.into_iter().collect(alloc)
}
