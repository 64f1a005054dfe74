ghost use Rattle.std.specs.Prelude.{◌≡◌, ℕ, ◌+◌, ◌^◌, ◌<◌, ◌≤◌, ◌++◌, List, length, map, sum_by, IfOk, OnOk};
ghost use Rattle.std.specs.Arc.{arc_value};
ghost use Rattle.commit_index.specs.Places.{found, place_in, IsIndexOf};

use commit_graph::Graph;
use multimap::Multimap;
use osv_prim::{Ledger, Memory, Oid, RepoKey, Steps};
use std::alloc::Global;
use std::marker::Model;
use std::sync::Arc;

/// The places of commits: the numbers of their repositories, in the order in which these were given, and
/// of their rows there. Contracts see it as the list of ids and places. It holds 28 bytes a commit, and no
/// graph.
#[derive(Drop)]
pub struct CommitIndex {
    places: Multimap<Oid, (u32, u32)>,
}

impl Model for CommitIndex {
    ghost use Rattle.std.specs.Prelude.{ℕ, List};

    ghost Value = { List (List ℕ × (ℕ × ℕ)) };

    ghost view = { λ i. i.places };
}

impl CommitIndex {
    /// The index of the commits of repositories. It looks at each row once, and takes O(n log n)
    /// comparisons.
    pub fn build<L: Ledger>(
        alloc: Global,
        repos: &[(RepoKey, Arc<Graph>)],
        steps: &mut Steps<L>,
    ) -> Result<CommitIndex, Memory>
        requires { length repos.now < 2 ^ 32 }
        ensures index { IfOk result (IsIndexOf (map (λ g. arc_value g.1) repos.now)) }
        ensures steps { steps.new.graph ≤ steps.old.graph + sum_by length (map (λ g. arc_value g.1) repos.now) }
        ensures records { steps.new.record_count ≡ steps.old.record_count }
    {
        let mut entries = Vec::new(alloc);
        for (number, repo) in repos.iter().enumerate() {
            push_rows(number as u32, &repo.1, &mut entries, steps)?;
        }
        Ok(CommitIndex {
            places: Multimap::build(alloc, entries)?,
        })
    }

    /// For each repository and row with this commit, their numbers, ascending. It takes O(log n)
    /// comparisons.
    pub fn places(&self, oid: &Oid) -> &[(u32, u32)]
        ensures { result.now ≡ found self.now oid.now }
    {
        self.places.get(oid)
    }
}

// The rows of a repository's graph.
fn push_rows<L: Ledger>(
    repo: u32,
    graph: &Graph,
    entries: &mut Vec<(Oid, (u32, u32))>,
    steps: &mut Steps<L>,
) -> Result<(), Memory>
    ensures rows { OnOk result ((c : List ℕ) → found entries.new.items c ≡ found entries.old.items c ++ place_in repo graph.now c) }
    ensures steps { steps.new.graph ≤ steps.old.graph + length graph.now }
    ensures records { steps.new.record_count ≡ steps.old.record_count }
{
    let count = graph.len();
    for number in 0..count {
        let oid = graph.row_at(number, steps).oid;
        entries.push((oid, (repo, number)))?;
    }
    Ok(())
}
