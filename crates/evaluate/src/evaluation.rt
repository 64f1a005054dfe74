ghost use Rattle.std.specs.Prelude.{◌≡◌, ◌+◌, ◌*◌, ◌≤◌, map, IfOk};
ghost use Rattle.std.specs.Arc.{arc_value};
ghost use Rattle.std.specs.BTreeMap.{values};
ghost use Rattle.std.specs.List.{sum_by};
ghost use Rattle.evaluate.specs.Hits.{hits, keyed};
ghost use Rattle.evaluate.specs.Rows.{subject_rows};

use crate::by_subject::is_hit;
use commit_graph::Graph;
use osv_prim::{Id, Ledger, Memory, RepoKey, Steps, Subject};
use osv_record::Record;
use std::alloc::{AllocError, Global};
use std::collections::BTreeMap;
use std::sync::Arc;

/// Of imports in order, those that hit what is asked, ascending by id. Of several with one id the
/// last counts, also where it is the one that doesn't hit. No withdrawn one hits (OSV schema 1.6,
/// "Evaluation" and "withdrawn"). Each repository's graph of commits stands beside its key; only a
/// subject with a commit looks at graphs, with at most two graph steps for each row of the graph of
/// each GIT range in entries of the asked package. Only want of memory is refused.
pub fn hits<L: Ledger>(
    alloc: Global,
    records: &[Arc<Record>],
    repos: &[(RepoKey, Arc<Graph>)],
    subject: &Subject,
    steps: &mut Steps<L>,
) -> Result<Vec<Arc<Record>>, Memory>
    ensures hits { IfOk result (λ v. map (λ a. arc_value a) v.items ≡ hits (map (λ a. arc_value a) records.now) (map (λ g. (g.0, arc_value g.1)) repos.now) subject.now) }
    ensures steps { steps.new.graph ≤ steps.old.graph + 2 * sum_by (subject_rows (map (λ g. (g.0, arc_value g.1)) repos.now) subject.now) (map (λ a. arc_value a) records.now) }
    ensures records { steps.new.record_count ≡ steps.old.record_count }
{
    let found = hits_by_id(alloc, records, repos, subject, steps)?;
    shared(alloc, values_of(alloc, found)?.as_slice())
}

// Only hits are kept, so the map stays small beside the imports, and few look-ups miss the cache.
fn hits_by_id<'a, L: Ledger>(
    alloc: Global,
    records: &'a [Arc<Record>],
    repos: &[(RepoKey, Arc<Graph>)],
    subject: &Subject,
    steps: &mut Steps<L>,
) -> Result<BTreeMap<&'a Id, &'a Arc<Record>>, Memory>
    ensures hits { IfOk result (λ m. map (λ e. (e.0.now, arc_value e.1.now)) m.entries ≡ map keyed (hits (map (λ a. arc_value a) records.now) (map (λ g. (g.0, arc_value g.1)) repos.now) subject.now)) }
    ensures steps { steps.new.graph ≤ steps.old.graph + 2 * sum_by (subject_rows (map (λ g. (g.0, arc_value g.1)) repos.now) subject.now) (map (λ a. arc_value a) records.now) }
    ensures records { steps.new.record_count ≡ steps.old.record_count }
{
    let mut found = BTreeMap::new(alloc);
    for record in records {
        if is_hit(alloc, record, repos, subject, steps)? {
            found.insert(&record.id, record)?;
        } else {
            found.remove(&&record.id);
        }
    }
    Ok(found)
}

fn values_of<'a>(
    alloc: Global,
    found: BTreeMap<&'a Id, &'a Arc<Record>>,
) -> Result<Vec<&'a Arc<Record>>, AllocError>
    ensures { IfOk result (λ v. v.items ≡ values found.entry) }
{
    found.into_values().collect(alloc)
}

fn shared(alloc: Global, found: &[&Arc<Record>]) -> Result<Vec<Arc<Record>>, Memory>
    ensures { IfOk result (λ v. map (λ a. arc_value a) v.items ≡ map (λ a. arc_value a.now) found.now) }
{
    let mut records = Vec::with_capacity(alloc, found.len())?;
    for record in found {
        records.push(Arc::try_clone(record)?)?;
    }
    Ok(records)
}
