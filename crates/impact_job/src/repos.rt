ghost use Rattle.std.specs.Prelude.{◌≡◌, ◌++◌, [], IfOk, OnOk};
ghost use Rattle.impact_job.specs.Tables.{repos_seen, with_graphs};
ghost use Rattle.impact_job.specs.Walks.{entries_seen};

use commit_graph::Graph;
use indexmap::IndexMap;
use osv_prim::{Memory, RepoKey};
use std::alloc::{AllocError, Global};
use std::sync::Arc;

/// The graphs of a map by the keys of repositories.
pub(crate) fn repos_of<'a>(
    alloc: Global,
    found: IndexMap<&'a RepoKey, &'a Arc<Graph>>,
) -> Result<Vec<(RepoKey, Arc<Graph>)>, Memory>
    ensures { IfOk result (λ v. repos_seen v.items ≡ entries_seen found.entry.entries) }
{
    let entries = entries_of(alloc, found)?;
    copies_of(alloc, entries.as_slice())
}

fn copies_of(
    alloc: Global,
    entries: &[(&RepoKey, &Arc<Graph>)],
) -> Result<Vec<(RepoKey, Arc<Graph>)>, Memory>
    ensures { IfOk result (λ v. repos_seen v.items ≡ entries_seen entries.now) }
{
    let mut copies = Vec::with_capacity(alloc, entries.len())?;
    for (key, graph) in entries {
        copies.push((key.copy(alloc)?, Arc::try_clone(graph)?))?;
    }
    Ok(copies)
}

/// The graphs of a base, each in place of that of its repository among those that grew, the last of them,
/// and the new ones, by one look-up for each.
pub(crate) fn by_key<'a>(
    alloc: Global,
    base: &'a [(RepoKey, Arc<Graph>)],
    grown: &'a [(RepoKey, Arc<Graph>)],
) -> Result<IndexMap<&'a RepoKey, &'a Arc<Graph>>, Memory>
    ensures { IfOk result (λ m. entries_seen m.entries ≡ with_graphs [] (repos_seen base.now ++ repos_seen grown.now)) }
{
    let mut found = IndexMap::with_capacity(alloc, base.len())?;
    put_each(&mut found, base)?;
    put_each(&mut found, grown)?;
    Ok(found)
}

fn put_each<'a>(
    found: &mut IndexMap<&'a RepoKey, &'a Arc<Graph>>,
    repos: &'a [(RepoKey, Arc<Graph>)],
) -> Result<(), Memory>
    ensures { OnOk result (entries_seen found.new.entries ≡ with_graphs (entries_seen found.old.entries) (repos_seen repos.now)) }
{
    for (key, graph) in repos {
        found.insert(key, graph)?;
    }
    Ok(())
}

fn entries_of<'a>(
    alloc: Global,
    found: IndexMap<&'a RepoKey, &'a Arc<Graph>>,
) -> Result<Vec<(&'a RepoKey, &'a Arc<Graph>)>, AllocError>
    ensures { IfOk result (λ v. v.items ≡ found.entry.entries) }
{
    found.into_iter().collect(alloc)
}
