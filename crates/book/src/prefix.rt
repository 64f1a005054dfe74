ghost use Rattle.std.specs.Prelude.{◌≡◌, ◌++◌, ◌∷◌, [], List, IfOk, OnOk};
ghost use Rattle.history.specs.declared.past.Past.{Past};
ghost use Rattle.history.specs.Entries.{History, imports};
ghost use Rattle.snapshot.specs.Snapshots.{StandsFor};
ghost use Rattle.impact_job.specs.Tables.{IsPrefixOf};
ghost use Rattle.std.specs.Arc.{arc_value};
ghost use Rattle.book.specs.Entries.{past, history_of, IsWhole, AreWhole};

use crate::entry::Entry;
use impact_job::Prefix;
use osv_prim::Memory;
use snapshot::Snapshot;
use std::alloc::Global;
use std::sync::Arc;

// One entry more, which the prefix has where it is an import.
fn add(alloc: Global, prefix: &mut Prefix, entry: &Entry) -> Result<(), Memory>
    ensures { OnOk result ((b : List Past) (h : History) → IsPrefixOf prefix.old b (imports h) → IsWhole h entry.now → IsPrefixOf prefix.new b (imports (h ++ past entry.now ∷ []))) }
{
    match entry {
        Entry::Import { advisory, .. } => {
            let advisory = Arc::try_clone(advisory)?;
            prefix.import(advisory)
        }
        Entry::Grow { key, graph, .. } => {
            let owned = key.copy(alloc)?;
            let shared = Arc::try_clone(graph)?;
            prefix.grow(owned, shared)
        }
        Entry::Publish { .. } => Ok(()),
    }
}

// The imports of a snapshot.
fn begun(alloc: Global, base: &Snapshot) -> Result<Prefix, Memory>
    ensures { (b : List Past) → StandsFor base.now b → IfOk result (λ x. IsPrefixOf x b b) }
{
    let tables = Arc::try_clone(base.tables())?;
    Ok(Prefix::over(alloc, tables))
}

/// The imports of a snapshot, which are those of the entries before, and after them those among later ones.
pub(crate) fn prefix_over(
    alloc: Global,
    base: &Arc<Snapshot>,
    later: &[Entry],
) -> Result<Prefix, Memory>
    ensures { (h : History) → StandsFor (arc_value base.now) (imports h) → AreWhole h later.now → IfOk result (λ x. IsPrefixOf x (imports h) (imports (h ++ history_of later.now))) }
{
    let mut prefix = begun(alloc, base)?;
    for entry in later {
        add(alloc, &mut prefix, entry)?;
    }
    Ok(prefix)
}
