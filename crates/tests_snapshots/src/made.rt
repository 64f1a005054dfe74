ghost use Rattle.std.specs.Prelude.{List, IfOk};
ghost use Rattle.std.specs.Arc.{arc_value};
ghost use Rattle.history.specs.declared.past.Past.{Past};
ghost use Rattle.impact_job.specs.Tables.{IsPrefixOf, IsFilledOf};
ghost use Rattle.snapshot.specs.Snapshots.{StandsFor};

use crate::pieces::{CallCount, filled_of};
use impact_job::{Filled, Prefix};
use osv_prim::{Ledger, Memory, Steps};
use osv_record::Record;
use snapshot::{Finished, Job, Snapshot, do_job};
use std::alloc::Global;
use std::sync::Arc;

/// The newest snapshot, all imports, and how many of them each snapshot added.
#[derive(Drop)]
pub struct Store {
    pub snapshot: Arc<Snapshot>,
    imports: Vec<Arc<Record>>,
    counts: Vec<usize>,
    waiting: usize,
    gate: CallCount,
}

impl Store {
    pub fn new(alloc: Global) -> Result<Store, Memory> {
        Ok(Store {
            snapshot: Arc::new(alloc, Snapshot::empty(alloc)?)?,
            imports: Vec::new(alloc),
            counts: Vec::new(alloc),
            waiting: 0,
            gate: CallCount::new(),
        })
    }

    /// Keeps an advisory for the next snapshot.
    pub fn import(&mut self, alloc: Global, json: &str) -> Result<String, Memory> {
        let Ok(record) = Record::read(alloc, json.as_bytes()) else {
            return Ok(String::from_str(alloc, "not read")?);
        };
        self.imports.push(Arc::new(alloc, record)?)?;
        self.waiting = self.waiting.saturating_add(1);
        Ok(String::from_str(alloc, "imported")?)
    }

    /// Makes the next snapshot by its jobs, and those before it once more. Tells how often the gate was
    /// called before a piece and after one.
    pub fn publish<L: Ledger>(
        &mut self,
        alloc: Global,
        steps: &mut Steps<L>,
    ) -> Result<String, Memory> {
        self.counts.push(self.waiting)?;
        self.waiting = 0;
        let (imports, counts) = (self.imports.as_slice(), self.counts.as_slice());
        self.gate = CallCount::new();
        let snapshot = last_of(alloc, imports, counts, &self.gate, steps)?;
        let upto = snapshot.upto();
        let kept = snapshot.tables().records.len();
        let (before, after) = self.gate.counts();
        self.snapshot = snapshot;
        Ok(format!(in alloc;
            "{upto} imports, {kept} advisories, gate {before} before, {after} after"
        )?)
    }
}

// The snapshot of all imports, each made from the one before and so many more.
fn last_of<L: Ledger>(
    alloc: Global,
    imports: &[Arc<Record>],
    counts: &[usize],
    gate: &CallCount,
    steps: &mut Steps<L>,
) -> Result<Arc<Snapshot>, Memory> {
    let mut snapshot = first(alloc)?;
    let mut rest = imports;
    for count in counts {
        let (added, later) = rest.split_at((*count).min(rest.len()));
        let prefix = prefix_of(alloc, &snapshot, added)?;
        snapshot = built(alloc, snapshot, prefix, gate, steps)?;
        rest = later;
    }
    Ok(snapshot)
}

fn first(alloc: Global) -> Result<Arc<Snapshot>, Memory>
    ensures { IfOk result (λ s. (p : List Past) × StandsFor (arc_value s) p) }
{
    Ok(Arc::new(alloc, Snapshot::empty(alloc)?)?)
}

fn prefix_of(
    alloc: Global,
    snapshot: &Snapshot,
    added: &[Arc<Record>],
) -> Result<Arc<Prefix>, Memory>
    ensures { (b : List Past) → StandsFor snapshot.now b → IfOk result (λ x. (p : List Past) × IsPrefixOf (arc_value x) b p) }
{
    let prefix = with_each(
        Prefix::over(alloc, Arc::try_clone(snapshot.tables())?),
        added,
    )?;
    Ok(Arc::new(alloc, prefix)?)
}

fn with_each(prefix: Prefix, added: &[Arc<Record>]) -> Result<Prefix, Memory>
    ensures { (b p : List Past) → IsPrefixOf prefix b p → IfOk result (λ x. (q : List Past) × IsPrefixOf x b q) }
{
    let mut longer = prefix;
    for advisory in added {
        longer.import(Arc::try_clone(advisory)?)?;
    }
    Ok(longer)
}

fn built<L: Ledger>(
    alloc: Global,
    base: Arc<Snapshot>,
    prefix: Arc<Prefix>,
    gate: &CallCount,
    steps: &mut Steps<L>,
) -> Result<Arc<Snapshot>, Memory>
    requires { (b : List Past) × ((p : List Past) × (StandsFor (arc_value base) b × IsPrefixOf (arc_value prefix) b p)) }
    ensures { IfOk result (λ s. (p : List Past) × StandsFor (arc_value s) p) }
{
    let filled = filled(alloc, prefix, gate, steps)?;
    let job = Job::Assemble {
        build: 1,
        base,
        filled,
    };
    match do_job(alloc, job, gate, steps) {
        Ok(Finished::Assemble { snapshot, .. }) => Ok(snapshot),
        _ => Err(Memory),
    }
}

// The plan with its pieces done.
fn filled<L: Ledger>(
    alloc: Global,
    prefix: Arc<Prefix>,
    gate: &CallCount,
    steps: &mut Steps<L>,
) -> Result<Arc<Filled>, Memory>
    requires { (b : List Past) × ((p : List Past) × IsPrefixOf (arc_value prefix) b p) }
    ensures { (b p : List Past) → IsPrefixOf (arc_value prefix) b p → IfOk result (λ f. IsFilledOf (arc_value f) b p) }
{
    match do_job(alloc, Job::Plan { build: 1, prefix }, gate, steps) {
        Ok(Finished::Plan { plan, places, .. }) => {
            let filled = filled_of(alloc, plan, places.as_slice(), gate, steps)?;
            Ok(Arc::new(alloc, filled)?)
        }
        _ => Err(Memory),
    }
}
