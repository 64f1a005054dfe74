ghost use Rattle.std.specs.Prelude.{◌≡◌, ◌↔◌, ℕ, List, false, length, drop, IfOk, IsTrue};
ghost use Rattle.std.specs.Arc.{arc_value};
ghost use Rattle.history.specs.declared.past.Past.{Past};
ghost use Rattle.history.specs.Prefixes.{graph};
ghost use Rattle.history.specs.Lookups.{has_grow};
ghost use Rattle.impact_job.specs.Tables.{IsPrefixOf};
ghost use Rattle.impact_job.specs.Walks.{AreGraphsOf};

use crate::prefix::Prefix;
use crate::repos::by_key;
use commit_graph::Graph;
use indexmap::IndexMap;
use osv_prim::{Memory, RepoKey};
use std::alloc::Global;
use std::sync::Arc;

/// The graphs of a build by the keys of their repositories.
#[derive(Drop)]
pub(crate) struct Graphs<'a> {
    pub(crate) all: IndexMap<&'a RepoKey, &'a Arc<Graph>>,
    // Those of the repositories that have a Grow since the snapshot before.
    pub(crate) grown: IndexMap<&'a RepoKey, &'a Arc<Graph>>,
    // That of a repository without rows.
    pub(crate) none: Arc<Graph>,
}

impl<'a> Graphs<'a> {
    /// Those of a base and of what was added to it, by one look-up for each.
    pub(crate) fn of(alloc: Global, prefix: &'a Prefix) -> Result<Graphs<'a>, Memory>
        ensures { (b p : List Past) → IsPrefixOf prefix.now b p → IfOk result (λ g. AreGraphsOf g b p) }
    {
        let added = prefix.grown.as_slice();
        let all = by_key(alloc, prefix.base.repos.as_slice(), added)?;
        let grown = by_key(alloc, &[], added)?;
        let empty = Graph::empty(alloc)?;
        let none = Arc::new(alloc, empty)?;
        Ok(Graphs { all, grown, none })
    }

    /// The graph of a repository.
    pub(crate) fn graph(&self, key: &RepoKey) -> &Arc<Graph>
        ensures { (b p : List Past) → AreGraphsOf self.now b p → arc_value result.now ≡ graph p key.now }
    {
        match self.all.get(&key) {
            Some(graph) => graph,
            None => &self.none,
        }
    }

    /// Whether a repository has a Grow since the snapshot before.
    pub(crate) fn has_grown(&self, key: &RepoKey) -> bool
        ensures { (b p : List Past) → AreGraphsOf self.now b p → result ≡ has_grow (drop (length b) p) key.now }
    {
        self.grown.get(&key).is_some()
    }

    /// Whether no repository has a Grow since the snapshot before.
    pub(crate) fn is_quiet(&self) -> bool
        ensures { (b p : List Past) → AreGraphsOf self.now b p → (IsTrue result ↔ ((key : List ℕ) → has_grow (drop (length b) p) key ≡ false)) }
    {
        self.grown.is_empty()
    }
}
