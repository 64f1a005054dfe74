ghost use Rattle.std.specs.Prelude.{◌≡◌, ◌+◌, ◌<◌, ◌≤◌, ℕ, true, length, take, false, IfOk, slice_index_or, MatchOption};
ghost use Rattle.std.specs.List.{list_all};
ghost use Rattle.osv_prim.specs.Graphs.{id_at, is_named, is_read, has_limit, names_all};
ghost use Rattle.osv_prim.specs.declared.event.EventKind.TheVariants.{Limit};
ghost use Rattle.git_range.specs.Rows.{AreRows};
ghost use Rattle.impact_set.specs.Standing.{lets_row_through, through_of};

use crate::before::before_rows;
use crate::bits::Bits;
use crate::digest::Digested;
use commit_graph::Graph;
use git_range::{all_read, has_limit, names_all};
use osv_prim::{Event, EventKind, Ledger, Memory, Steps};
use std::alloc::Global;

/// For each row, whether every event can be read and the limits let its commit through, where that is
/// known of the first rows. There is no list where each is let through.
pub(crate) fn let_through_rows<L: Ledger>(
    alloc: Global,
    first: usize,
    old: &Option<Digested>,
    events: &[Event],
    graph: &Graph,
    steps: &mut Steps<L>,
) -> Result<Option<Digested>, Memory>
    requires within { first ≤ length graph.now }
    requires old { AreRows first (through_of first old.now) (lets_row_through events.now (take first graph.now)) }
    ensures through { IfOk result (λ v. AreRows (length graph.now) (through_of (length graph.now) v) (lets_row_through events.now graph.now)) }
    ensures steps { steps.new.graph ≤ steps.old.graph + length graph.now }
    ensures few { ((k : ℕ) → first ≤ k → k < length graph.now → is_named Limit events.now (id_at graph.now k) ≡ false) → steps.new.graph ≡ steps.old.graph }
    ensures records { steps.new.record_count ≡ steps.old.record_count }
{
    // Its contract tells that the graph is legal.
    let count = graph.len() as usize;
    if !all_read(events) {
        let none = Bits::none(alloc, count)?;
        let digested = Digested::of(alloc, none)?;
        return Ok(Some(digested));
    }
    if !has_limit(events) || names_all(EventKind::Limit, events) {
        return Ok(None);
    }
    match old {
        Some(old) => {
            let marks = limited_rows(alloc, first, old.bits(), events, graph, steps)?;
            Ok(Some(marks))
        }
        None => {
            let all = all_through(alloc, first)?;
            let marks = limited_rows(alloc, first, &all, events, graph, steps)?;
            Ok(Some(marks))
        }
    }
}

// As `let_through_rows`, where limits are given and none is `*`.
fn limited_rows<L: Ledger>(
    alloc: Global,
    first: usize,
    old: &Bits,
    events: &[Event],
    graph: &Graph,
    steps: &mut Steps<L>,
) -> Result<Digested, Memory>
    requires read { list_all is_read events.now ≡ true }
    requires limited { has_limit events.now ≡ true }
    requires bound { names_all Limit events.now ≡ false }
    requires within { first ≤ length graph.now }
    requires old { AreRows first old.now (lets_row_through events.now (take first graph.now)) }
    ensures through { IfOk result (λ v. AreRows (length graph.now) v (lets_row_through events.now graph.now)) }
    ensures steps { steps.new.graph ≤ steps.old.graph + length graph.now }
    ensures few { ((k : ℕ) → first ≤ k → k < length graph.now → is_named Limit events.now (id_at graph.now k) ≡ false) → steps.new.graph ≡ steps.old.graph }
    ensures records { steps.new.record_count ≡ steps.old.record_count }
{
    // Its contract tells that the graph is legal.
    let _ = graph.len();
    let marks = before_rows(alloc, old, events, graph, steps)?;
    let digested = Digested::of(alloc, marks)?;
    Ok(digested)
}

// Every row is let through.
fn all_through(alloc: Global, count: usize) -> Result<Bits, Memory>
    ensures size { IfOk result (λ v. length v ≡ count) }
    ensures each { IfOk result (λ v. (n : ℕ) → n < count → slice_index_or v n false ≡ true) }
{
    let mut all = Bits::none(alloc, count)?;
    for number in 0..count {
        all.set(number);
    }
    Ok(all)
}

/// Whether the commit with this number is let through.
pub(crate) fn lets_through(rows: &Option<Digested>, number: usize) -> bool
    requires { MatchOption rows.now (Unit {0}) (λ b. number < length b) }
    ensures { (count : ℕ) → number < count → result ≡ slice_index_or (through_of count rows.now) number false }
{
    match rows {
        Some(rows) => rows.get(number),
        None => true,
    }
}
