ghost use Rattle.std.specs.Prelude.{◌≡◌, ◌+◌, ◌-◌, ◌<◌, ◌≤◌, ℕ, List, length, Some, IfOk, OnOk, OnErr, if◌then◌else◌};
ghost use Rattle.std.specs.Arc.{arc_value};
ghost use Rattle.std.specs.HashMap.{get};
ghost use Rattle.std.specs.Str.{bytes_eq};
ghost use Rattle.osv_prim.specs.Graphs.{IsLegal};
ghost use Rattle.commit_graph.specs.Linked.{weight_of};
ghost use Rattle.history.specs.Prefixes.{grows, graph};
ghost use Rattle.history.specs.Conditions.{IsOfVersion};
ghost use Rattle.book_model.specs.Steps.{ShowsRepo, Grows};

use crate::entry::Entry;
use crate::ledger::Book;
use book_desk::GrowFault;
use commit_graph::Graph;
use osv_prim::{Memory, RepoKey};
use std::alloc::Global;
use std::collections::HashMap;
use std::sync::Arc;

/// How many Grows a repository has, and its graph after them.
#[derive(Drop)]
pub(crate) struct Repo {
    pub(crate) grows: u64,
    pub(crate) graph: Arc<Graph>,
}

// How many Grows a repository has, how many commits its graph, and what that weighs.
#[derive(Clone, Copy)]
struct Standing {
    grows: u64,
    commits: u32,
    weight: u64,
}

// What rows weigh that a graph has beyond those of this weight: 64 bytes, the key, and the rows.
fn weight_beyond(key: &RepoKey, graph: &Graph, before: u64) -> u64
    ensures most { result ≤ 64 + length key.now + (weight_of graph.now - before) }
    ensures exact { before ≤ 4294967296 → result ≤ 4294967296 → result ≡ 64 + length key.now + (weight_of graph.now - before) }
    ensures legal { IsLegal graph.now }
{
    // Its contract tells that the graph is legal.
    let _ = graph.len();
    let rows = graph.weight().saturating_sub(before);
    rows.saturating_add(64 + key.as_str().len() as u64)
}

// So a repository is found from now on.
fn put(
    alloc: Global,
    repos: &mut HashMap<RepoKey, Repo>,
    key: &RepoKey,
    repo: Repo,
) -> Result<(), Memory>
    ensures ok { OnOk result ((q : List ℕ) → get bytes_eq repos.new q ≡ (if bytes_eq key.now q then Some repo else get bytes_eq repos.old q)) }
    ensures err { OnErr result ((q : List ℕ) → get bytes_eq repos.new q ≡ get bytes_eq repos.old q) }
{
    let owned = key.copy(alloc)?;
    match repos.insert(owned, repo) {
        Ok(_) => Ok(()),
        Err(_) => Err(Memory),
    }
}

impl Book {
    // How a repository stands.
    fn standing(&self, key: &RepoKey) -> Standing
        ensures grows { result.grows ≡ grows self.now.history key.now }
        ensures commits { result.commits ≡ length (graph self.now.history key.now) }
        ensures weight { result.weight ≡ weight_of (graph self.now.history key.now) }
    {
        match self.repos.get(key) {
            None => Standing {
                grows: 0,
                commits: 0,
                weight: 0,
            },
            Some(repo) => Standing {
                grows: repo.grows,
                commits: repo.graph.len(),
                weight: repo.graph.weight(),
            },
        }
    }

    /// How many Grows a repository has, and its graph. Where it has none these are 0 and the graph
    /// without commits. Only memory can fail.
    pub fn repo(&self, key: &RepoKey) -> Result<(u64, Arc<Graph>), Memory>
        ensures { ShowsRepo (λ a. arc_value a) key.now self.now result self.now }
    {
        match self.repos.get(key) {
            Some(repo) => {
                let graph = Arc::try_clone(&repo.graph)?;
                Ok((repo.grows, graph))
            }
            None => {
                let graph = Graph::empty(self.alloc)?;
                Ok((0, Arc::new(self.alloc, graph)?))
            }
        }
    }

    /// Adds the rows that `graph` has beyond the graph of a repository, as one entry at the end, and gives
    /// its place, from 0. `graph` was made over the first `version` Grows of the repository: where it has
    /// another number of them now, it has moved, and nothing is added. The weight is tested before memory
    /// is taken. No row is read: a graph knows how many rows it has and what they weigh.
    pub fn grow(
        &mut self,
        by: u64,
        key: RepoKey,
        version: u64,
        graph: Arc<Graph>,
    ) -> Result<u64, GrowFault>
        requires given { by < self.old.callers }
        requires version { IsOfVersion key version (arc_value graph) self.old.history }
        ensures { Grows by key version (arc_value graph) self.old result self.new }
    {
        let standing = self.standing(&key);
        if version != standing.grows {
            return Err(GrowFault::RepoMoved {
                seen: version,
                now: standing.grows,
            });
        }
        let used = self.counts.used;
        let limit = self.settings.weight;
        let weight = weight_beyond(&key, &graph, standing.weight);
        if limit - used < weight {
            return Err(GrowFault::JournalFull { used, limit });
        }
        // One more than it needs: the room for the publication of a build that is open.
        let Ok(()) = self.entries.reserve(2) else {
            return Err(GrowFault::Memory);
        };
        let Ok(shared) = Arc::try_clone(&graph) else {
            return Err(GrowFault::Memory);
        };
        let repo = Repo {
            grows: standing.grows + 1,
            graph: shared,
        };
        let Ok(()) = put(self.alloc, &mut self.repos, &key, repo) else {
            return Err(GrowFault::Memory);
        };
        let place = self.entries.len() as u64;
        self.entries.push_reserved(Entry::Grow {
            by,
            key,
            graph,
            from: standing.commits,
        });
        self.counts.imports += 1;
        self.counts.used = used + weight;
        Ok(place)
    }
}
