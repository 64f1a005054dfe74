ghost use Rattle.std.specs.Prelude.{◌≡◌, ◌+◌, ◌*◌, ◌<◌, ◌≤◌, IfOk, Some, map, length, option_map};
ghost use Rattle.std.specs.Arc.{arc_value};
ghost use Rattle.std.specs.List.{list_any, sum_by};
ghost use Rattle.osv_prim.specs.Graphs.{has};
ghost use Rattle.evaluate.specs.Hits.{git_entry_hit, git_hit, git_range_hit, graph_of, is_of_package, affects_commit};
ghost use Rattle.evaluate.specs.Rows.{entry_rows, git_rows, range_rows};

use commit_graph::Graph;
use git_range::affects;
use osv_prim::{Ledger, Memory, Oid, PackageKey, RepoKey, Steps};
use osv_record::{Affected, Range, Record};
use std::alloc::Global;
use std::sync::Arc;

/// Whether an advisory hits a commit: in some entry, whose package matches the asked one where one is
/// asked for, the graph of some GIT range's repository has the commit, and the range affects it (OSV
/// schema 1.6, "Evaluation"). Each repository's graph stands beside its key, and a range whose
/// repository has none hits nothing. A withdrawn advisory hits like any other. It takes at most two
/// graph steps for each row of the graph of each GIT range in such entries. Only want of memory is
/// refused.
pub fn git_hit<L: Ledger>(
    alloc: Global,
    advisory: &Record,
    repos: &[(RepoKey, Arc<Graph>)],
    commit: &Oid,
    asked: Option<&PackageKey>,
    steps: &mut Steps<L>,
) -> Result<bool, Memory>
    ensures hit { IfOk result (λ b. b ≡ git_hit advisory.now (map (λ g. (g.0, arc_value g.1)) repos.now) commit.now (option_map (λ k. k.now) asked.entry)) }
    ensures steps { steps.new.graph ≤ steps.old.graph + 2 * git_rows (map (λ g. (g.0, arc_value g.1)) repos.now) (option_map (λ k. k.now) asked.entry) advisory.now }
    ensures records { steps.new.record_count ≡ steps.old.record_count }
{
    any_entry_hit(
        alloc,
        advisory.affected.as_slice(),
        repos,
        commit,
        asked,
        steps,
    )
}

// The same, of an advisory's entries.
pub(crate) fn any_entry_hit<L: Ledger>(
    alloc: Global,
    entries: &[Affected],
    repos: &[(RepoKey, Arc<Graph>)],
    commit: &Oid,
    asked: Option<&PackageKey>,
    steps: &mut Steps<L>,
) -> Result<bool, Memory>
    ensures hit { IfOk result (λ b. b ≡ list_any (git_entry_hit (map (λ g. (g.0, arc_value g.1)) repos.now) commit.now (option_map (λ k. k.now) asked.entry)) entries.now) }
    ensures steps { steps.new.graph ≤ steps.old.graph + 2 * sum_by (entry_rows (map (λ g. (g.0, arc_value g.1)) repos.now) (option_map (λ k. k.now) asked.entry)) entries.now }
    ensures records { steps.new.record_count ≡ steps.old.record_count }
{
    let mut rest = entries;
    while let [entry, after @ ..] = rest {
        if is_of_package(asked, &entry.package)
            && any_range_hit(alloc, entry, repos, commit, steps)?
        {
            return Ok(true);
        }
        rest = after;
    }
    Ok(false)
}

fn is_of_package(asked: Option<&PackageKey>, key: &Option<PackageKey>) -> bool
    ensures { result ≡ is_of_package (option_map (λ k. k.now) asked.entry) key.now }
{
    match asked {
        None => true,
        Some(asked) => match key {
            Some(key) => key.matches(asked),
            None => false,
        },
    }
}

fn any_range_hit<L: Ledger>(
    alloc: Global,
    entry: &Affected,
    repos: &[(RepoKey, Arc<Graph>)],
    commit: &Oid,
    steps: &mut Steps<L>,
) -> Result<bool, Memory>
    ensures hit { IfOk result (λ b. b ≡ list_any (git_range_hit (map (λ g. (g.0, arc_value g.1)) repos.now) commit.now) entry.now.ranges) }
    ensures steps { steps.new.graph ≤ steps.old.graph + 2 * sum_by (range_rows (map (λ g. (g.0, arc_value g.1)) repos.now)) entry.now.ranges }
    ensures records { steps.new.record_count ≡ steps.old.record_count }
{
    let mut rest = entry.ranges.as_slice();
    while let [range, after @ ..] = rest {
        if git_range_hit(alloc, range, repos, commit, steps)? {
            return Ok(true);
        }
        rest = after;
    }
    Ok(false)
}

fn git_range_hit<L: Ledger>(
    alloc: Global,
    range: &Range,
    repos: &[(RepoKey, Arc<Graph>)],
    commit: &Oid,
    steps: &mut Steps<L>,
) -> Result<bool, Memory>
    ensures hit { IfOk result (λ b. b ≡ git_range_hit (map (λ g. (g.0, arc_value g.1)) repos.now) commit.now range.now) }
    ensures steps { steps.new.graph ≤ steps.old.graph + 2 * range_rows (map (λ g. (g.0, arc_value g.1)) repos.now) range.now }
    ensures records { steps.new.record_count ≡ steps.old.record_count }
{
    let Some(key) = &range.repo else {
        return Ok(false);
    };
    let Some(graph) = graph_of(repos, key) else {
        return Ok(false);
    };
    affects_commit(alloc, graph, range, commit, steps)
}

fn affects_commit<L: Ledger>(
    alloc: Global,
    graph: &Graph,
    range: &Range,
    commit: &Oid,
    steps: &mut Steps<L>,
) -> Result<bool, Memory>
    ensures affected { IfOk result (λ b. b ≡ affects_commit commit.now range.now.events graph.now) }
    ensures steps { steps.new.graph ≤ steps.old.graph + 2 * length graph.now }
    ensures records { steps.new.record_count ≡ steps.old.record_count }
{
    let Some(number) = graph.number_of(commit) else {
        return Ok(false);
    };
    affects(alloc, graph, range.events.as_slice(), number, steps)
}

fn graph_of<'a>(repos: &'a [(RepoKey, Arc<Graph>)], key: &RepoKey) -> Option<&'a Graph>
    ensures { option_map (λ g. g.now) result ≡ graph_of (map (λ g. (g.0, arc_value g.1)) repos.now) key.now }
{
    let mut rest = repos;
    while let [repo, after @ ..] = rest {
        if repo.0 == *key {
            return Some(&repo.1);
        }
        rest = after;
    }
    None
}
