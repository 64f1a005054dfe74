ghost use Rattle.std.specs.Prelude.{◌≡◌, ◌+◌, ◌*◌, ◌<◌, ◌≤◌, ℕ, length, take, false, IfOk};
ghost use Rattle.osv_prim.specs.Graphs.{id_at, is_named};
ghost use Rattle.osv_prim.specs.declared.event.EventKind.TheVariants.{Limit};
ghost use Rattle.git_range.specs.Affected.{is_affected};
ghost use Rattle.impact_set.specs.Standing.{StandsFor, is_member};

use crate::bits::Bits;
use crate::digest::Digested;
use crate::limits::{let_through_rows, lets_through};
use crate::reached::reached_rows;
use commit_graph::Graph;
use osv_prim::{Event, Ledger, Memory, Steps};
use std::alloc::Global;
use std::marker::Model;

/// The commits of a graph that a GIT range affects, by the numbers of their rows (OSV schema 1.6,
/// "affected[].ranges[].events" and "Evaluation"). It keeps one bit a commit, and a second one where the
/// range has a limit that isn't `*`, and beside each a byte for each 4,096 commits: whether the bits of
/// these commits are all unset, all set, or mixed. Only where they are mixed does a look-up read the bits.
/// Contracts see what it knows of each commit: whether the range reaches it, and whether the limits let it
/// through; both are needed to extend it.
#[derive(Drop)]
pub struct ImpactSet {
    // Whether the range reaches each commit.
    reached: Digested,
    // Whether every event can be read and the limits let each commit through. There is none where each is
    // let through.
    let_through: Option<Digested>,
}

impl Model for ImpactSet {
    ghost use Rattle.std.specs.Prelude.{◌≡◌, ◌^◌, ◌<◌, length};
    ghost use Rattle.impact_set.specs.Standing.{Known, through_of};

    ghost Value = { Known };

    ghost view = { λ s. record { reached = s.reached; let_through = through_of (length s.reached) s.let_through } };

    ghost invariant = { λ s. (length (through_of (length s.reached) s.let_through) ≡ length s.reached) × (length s.reached < 2 ^ 32) };
}

impl ImpactSet {
    /// The set of a range with these events on a graph. It looks at each row once, and where the range has
    /// a limit once more at most.
    pub fn fresh<L: Ledger>(
        alloc: Global,
        events: &[Event],
        graph: &Graph,
        steps: &mut Steps<L>,
    ) -> Result<ImpactSet, Memory>
        ensures stands { IfOk result (StandsFor events.now graph.now) }
        ensures affected { IfOk result (λ s. (k : ℕ) → k < length graph.now → is_member s k ≡ is_affected graph.now events.now (id_at graph.now k)) }
        ensures steps { steps.new.graph ≤ steps.old.graph + 2 * length graph.now }
        ensures records { steps.new.record_count ≡ steps.old.record_count }
    {
        let none = Bits::none(alloc, 0)?;
        let none = ImpactSet {
            reached: Digested::of(alloc, none)?,
            let_through: None,
        };
        none.extend(alloc, events, graph, steps)
    }

    /// The set of the same range on a graph that begins with the rows for which this set stands. It looks
    /// at each new row once, and only where a limit names a new row at each row once more at most.
    pub fn extend<L: Ledger>(
        &self,
        alloc: Global,
        events: &[Event],
        graph: &Graph,
        steps: &mut Steps<L>,
    ) -> Result<ImpactSet, Memory>
        requires { StandsFor events.now (take (length self.now.reached) graph.now) self.now }
        ensures stands { IfOk result (StandsFor events.now graph.now) }
        ensures affected { IfOk result (λ s. (k : ℕ) → k < length graph.now → is_member s k ≡ is_affected graph.now events.now (id_at graph.now k)) }
        ensures steps { steps.new.graph ≤ steps.old.graph + 2 * length graph.now }
        ensures few { ((k : ℕ) → length self.now.reached ≤ k → k < length graph.now → is_named Limit events.now (id_at graph.now k) ≡ false)
            → steps.new.graph + length self.now.reached ≤ steps.old.graph + length graph.now }
        ensures records { steps.new.record_count ≡ steps.old.record_count }
    {
        // Its contract tells that the rows are fewer than 2^32.
        let _ = graph.len();
        let reached = reached_rows(alloc, self.reached.bits(), events, graph, steps)?;
        let digested = Digested::grown(alloc, &self.reached, reached)?;
        let let_through = let_through_rows(
            alloc,
            self.reached.len(),
            &self.let_through,
            events,
            graph,
            steps,
        )?;
        Ok(ImpactSet {
            reached: digested,
            let_through,
        })
    }

    /// Whether the commit with this number is in the set.
    pub fn has(&self, number: u32) -> bool
        requires { number < length self.now.reached }
        ensures { result ≡ is_member self.now number }
    {
        self.reached.get(number as usize) && lets_through(&self.let_through, number as usize)
    }

    /// How many commits the set covers, which are those of the graph.
    pub fn covers(&self) -> u32
        ensures { result ≡ length self.now.reached }
    {
        self.reached.len() as u32
    }
}
