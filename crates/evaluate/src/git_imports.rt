ghost use Rattle.std.specs.Prelude.{◌≡◌, ◌++◌, ◌∷◌, [], List, ℕ, map, filter, IfOk, OnOk, OnErr, option_map};
ghost use Rattle.std.specs.Arc.{arc_value};
ghost use Rattle.std.specs.List.{list_any};
ghost use Rattle.osv_record.specs.Advisories.{Advisory};
ghost use Rattle.evaluate.specs.Hits.{hit_ids};
ghost use Rattle.evaluate.specs.Kept.{KeepsEntries, commit_subject, has_git_range, has_repo, ids_of_entries, may_hit};

use crate::by_commit::any_entry_hit;
use commit_graph::Graph;
use osv_prim::{Id, Ledger, Memory, Oid, PackageKey, RepoKey, Steps};
use osv_record::{Affected, Range, Record};
use std::alloc::Global;
use std::collections::BTreeMap;
use std::sync::Arc;

/// What is kept of imports that come one after another, while the commits that they may hit are still to
/// come: of each id the entries of the last import, where it isn't withdrawn and has a GIT range. Contracts
/// see by `KeepsEntries` which imports it was given.
#[derive(Drop)]
pub struct GitImports {
    entries: BTreeMap<Id, osv_prim::List<Affected>>,
}

impl GitImports {
    /// What is kept of no imports. It takes no memory.
    #[tactic(auto, unfolding(crate::specs::Kept::KeepsEntries))]
    pub fn new(alloc: Global) -> GitImports
        ensures { KeepsEntries [] result }
    {
        GitImports {
            entries: BTreeMap::new(alloc),
        }
    }

    /// One more import, which counts in place of an earlier one of its id. Only want of memory is
    /// refused, and changes nothing.
    #[tactic(auto, unfolding(crate::specs::Kept::KeepsEntries))]
    pub fn import(&mut self, advisory: Record) -> Result<(), Memory>
        ensures ok { OnOk result ((imports : List Advisory) → KeepsEntries imports self.old → KeepsEntries (imports ++ advisory ∷ []) self.new) }
        ensures err { OnErr result ((imports : List Advisory) → KeepsEntries imports self.old → KeepsEntries imports self.new) }
    {
        if may_hit(&advisory) {
            let Record { id, affected, .. } = advisory;
            self.entries.insert(id, affected)?;
        } else {
            self.entries.remove(&advisory.id);
        }
        Ok(())
    }

    /// The ids of the imports that hit a commit, in entries of the asked package where one is asked for,
    /// ascending by their bytes. Only want of memory is refused.
    #[tactic(auto, unfolding(crate::specs::Kept::KeepsEntries))]
    pub fn into_hit_ids<L: Ledger>(
        self,
        alloc: Global,
        repos: &[(RepoKey, Arc<Graph>)],
        commit: &Oid,
        asked: Option<&PackageKey>,
        steps: &mut Steps<L>,
    ) -> Result<Vec<Id>, Memory>
        ensures { IfOk result (λ v. (imports : List Advisory) → KeepsEntries imports self
            → v.items ≡ hit_ids imports (map (λ g. (g.0, arc_value g.1)) repos.now) (commit_subject commit.now (option_map (λ k. k.now) asked.entry))) }
    {
        hits_among(alloc, self.entries, repos, commit, asked, steps)
    }
}

fn hits_among<L: Ledger>(
    alloc: Global,
    kept: BTreeMap<Id, osv_prim::List<Affected>>,
    repos: &[(RepoKey, Arc<Graph>)],
    commit: &Oid,
    asked: Option<&PackageKey>,
    steps: &mut Steps<L>,
) -> Result<Vec<Id>, Memory>
    ensures { IfOk result (λ v. v.items ≡ ids_of_entries (map (λ g. (g.0, arc_value g.1)) repos.now) commit.now (option_map (λ k. k.now) asked.entry) kept.entries) }
{
    let mut kept = kept;
    let mut found = Vec::new(alloc);
    while let Some((id, entries)) = kept.pop_first() {
        if any_entry_hit(alloc, entries.as_slice(), repos, commit, asked, steps)? {
            found.push(id)?;
        }
    }
    Ok(found)
}

fn may_hit(advisory: &Record) -> bool
    ensures { result ≡ may_hit advisory.now }
{
    !advisory.withdrawn && has_git_range(advisory.affected.as_slice())
}

fn has_git_range(entries: &[Affected]) -> bool
    ensures { result ≡ has_git_range entries.now }
{
    let mut rest = entries;
    while let [entry, after @ ..] = rest {
        if has_repo(entry.ranges.as_slice()) {
            return true;
        }
        rest = after;
    }
    false
}

// A GIT range alone has a repository.
fn has_repo(ranges: &[Range]) -> bool
    ensures { result ≡ has_repo ranges.now }
{
    let mut rest = ranges;
    while let [range, after @ ..] = rest {
        if range.repo.is_some() {
            return true;
        }
        rest = after;
    }
    false
}
