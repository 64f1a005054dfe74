use crate::rows::oid;
use commit_graph::Graph;
use evaluate::git_hit as hit_by_graphs;
use history::PieceKind;
use impact_set::ImpactSet;
use osv_prim::{Ledger, Memory, PackageKey, RepoKey, Steps};
use osv_record::Record;
use piece_work::{Piece, work};
use set_hits::{git_hit, places_of};
use std::alloc::Global;
use std::sync::Arc;

const URL: &str = "https://e.example/r";

// The set of each GIT range of an advisory, all of them on this graph or, of other repositories, on none.
fn sets_of<L: Ledger>(
    alloc: Global,
    advisory: &Arc<Record>,
    graph: &Arc<Graph>,
    steps: &mut Steps<L>,
) -> Result<Vec<Arc<ImpactSet>>, Memory> {
    let key = RepoKey::normal(alloc, URL)?;
    let empty = Arc::new(alloc, Graph::empty(alloc)?)?;
    let mut sets = Vec::new(alloc);
    let mut entry = 0u32;
    for affected in advisory.affected.as_slice() {
        let mut range = 0u32;
        for extent in affected.ranges.as_slice() {
            if let Some(repo) = &extent.repo {
                let own = if *repo == key { graph } else { &empty };
                sets.push(fresh(alloc, advisory, entry, range, own, steps)?)?;
            }
            range = range.saturating_add(1);
        }
        entry = entry.saturating_add(1);
    }
    Ok(sets)
}

fn fresh<L: Ledger>(
    alloc: Global,
    advisory: &Arc<Record>,
    entry: u32,
    range: u32,
    graph: &Arc<Graph>,
    steps: &mut Steps<L>,
) -> Result<Arc<ImpactSet>, Memory> {
    let piece = Piece {
        number: 0,
        kind: PieceKind::Fresh,
        advisory: Arc::try_clone(advisory)?,
        entry,
        range,
        graph: Arc::try_clone(graph)?,
        old: None,
    };
    work(alloc, &piece, steps)
}

/// Whether an advisory affects the commit of a letter, by its sets and by the graph, for any package and
/// for npm's `p`.
pub fn hits<L: Ledger>(
    alloc: Global,
    advisory: &Arc<Record>,
    graph: &Arc<Graph>,
    letter: &str,
    steps: &mut Steps<L>,
) -> Result<String, Memory> {
    let Ok(commit) = oid(letter) else {
        return Ok(String::from_str(alloc, "no id")?);
    };
    let mut repos = Vec::new(alloc);
    repos.push((RepoKey::normal(alloc, URL)?, Arc::try_clone(graph)?))?;
    let sets = sets_of(alloc, advisory, graph, steps)?;
    let key = PackageKey::normal(alloc, "npm", "p")?;
    let places = places_of(alloc, repos.as_slice(), &commit)?;
    let any = git_hit(advisory, sets.as_slice(), places.as_slice(), None);
    let of_p = git_hit(advisory, sets.as_slice(), places.as_slice(), Some(&key));
    let any_graph = hit_by_graphs(alloc, advisory, repos.as_slice(), &commit, None, steps)?;
    let p_graph = hit_by_graphs(
        alloc,
        advisory,
        repos.as_slice(),
        &commit,
        Some(&key),
        steps,
    )?;
    Ok(format!(in alloc; "{any} {of_p} by sets, {any_graph} {p_graph} by graphs")?)
}
