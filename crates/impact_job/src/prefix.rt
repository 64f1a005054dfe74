ghost use Rattle.std.specs.Prelude.{◌≡◌, ℕ, List, [], ◌∷◌, ◌++◌, OnOk, OnErr};
ghost use Rattle.std.specs.Arc.{arc_value};
ghost use Rattle.history.specs.declared.past.Past.{Past};
ghost use Rattle.history.specs.declared.past.Past.TheVariants.{Import, Grow};
ghost use Rattle.history.specs.Prefixes.{graph};
ghost use Rattle.osv_prim.specs.declared.oid.CommitRow.{CommitRow};
ghost use Rattle.impact_job.specs.Tables.{StandsFor, IsPrefixOf};

use crate::tables::Tables;
use commit_graph::Graph;
use osv_prim::{Memory, RepoKey};
use osv_record::Record;
use std::alloc::Global;
use std::sync::Arc;

/// The imports that a build is of: the tables of a snapshot, and the advisories and rows that came since.
#[derive(Drop)]
pub struct Prefix {
    pub(crate) base: Arc<Tables>,
    pub(crate) added: Vec<Arc<Record>>,
    // For each Grow that came since, the repository and its graph after it.
    pub(crate) grown: Vec<(RepoKey, Arc<Graph>)>,
    pub(crate) upto: u64,
}

impl Prefix {
    /// The imports of a snapshot, to which nothing is added yet.
    pub fn over(alloc: Global, base: Arc<Tables>) -> Prefix
        ensures { (b : List Past) → StandsFor (arc_value base) b → IsPrefixOf result b b }
    {
        let upto = base.upto;
        Prefix {
            base,
            added: Vec::new(alloc),
            grown: Vec::new(alloc),
            upto,
        }
    }

    /// Adds the next import. Only memory can fail, and then nothing is added.
    pub fn import(&mut self, advisory: Arc<Record>) -> Result<(), Memory>
        ensures ok { (b p : List Past) (by : ℕ) → IsPrefixOf self.old b p → OnOk result (IsPrefixOf self.new b (p ++ Import by (arc_value advisory) ∷ [])) }
        ensures err { (b p : List Past) → IsPrefixOf self.old b p → OnErr result (IsPrefixOf self.new b p) }
    {
        match self.upto.checked_add(1) {
            // No memory has so many.
            None => Err(Memory),
            Some(upto) => {
                self.added.push(advisory)?;
                self.upto = upto;
                Ok(())
            }
        }
    }

    /// Adds the next import, of rows, by the whole graph that the repository has with them. Only memory can
    /// fail, and then nothing is added.
    pub fn grow(&mut self, key: RepoKey, whole: Arc<Graph>) -> Result<(), Memory>
        ensures ok { (b p : List Past) (by : ℕ) (rows : List CommitRow) → IsPrefixOf self.old b p → arc_value whole ≡ graph (p ++ Grow by key rows ∷ []) key
            → OnOk result (IsPrefixOf self.new b (p ++ Grow by key rows ∷ [])) }
        ensures err { (b p : List Past) → IsPrefixOf self.old b p → OnErr result (IsPrefixOf self.new b p) }
    {
        // No memory has more.
        let Some(upto) = self.upto.checked_add(1) else {
            return Err(Memory);
        };
        self.grown.push((key, whole))?;
        self.upto = upto;
        Ok(())
    }

    /// How many imports there are.
    pub fn upto(&self) -> u64
        ensures { result ≡ self.now.upto }
    {
        self.upto
    }
}
