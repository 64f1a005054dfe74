ghost use Rattle.std.specs.Prelude.{length, take};
ghost use Rattle.impact_set.specs.Standing.{Known, StandsFor};

use crate::kept::members;
use crate::no_memory;
use crate::range::event;
use crate::rows::oid;
use commit_graph::{Graph, GraphFault};
use impact_set::{ImpactSet, laws};
use osv_prim::{CommitRow, Event, EventKind, Ledger, List, Memory, Steps};
use std::alloc::{AllocError, Global};
use std::io;
use std::time::Instant;

const MORE: u32 = 1000;

const RUNS: u32 = 9;

// Each row but the first has the one before it as its parent, and every fifth an earlier one beside it.
fn row(alloc: Global, number: u32) -> Result<Option<CommitRow>, Memory> {
    let Ok(id) = oid(format!(in alloc; "{number:x}")?.as_str()) else {
        return Ok(None);
    };
    let mut parents = List::new(alloc);
    for back in [1u32, 3 + number % 40] {
        if number > back && (back == 1 || number % 5 == 0) {
            let parent = number - back;
            if let Ok(parent) = oid(format!(in alloc; "{parent:x}")?.as_str()) {
                parents.push(parent)?;
            }
        }
    }
    Ok(Some(CommitRow { oid: id, parents }))
}

// The rows with these numbers.
fn rows(alloc: Global, first: u32, end: u32) -> Result<List<CommitRow>, Memory> {
    let mut rows = List::new(alloc);
    for number in first..end {
        if let Some(row) = row(alloc, number)? {
            rows.push(row)?;
        }
    }
    Ok(rows)
}

fn named(alloc: Global, kind: EventKind, number: u32) -> Result<Event, Memory> {
    event(alloc, kind, format!(in alloc; "{number:x}")?.as_str())
}

// From the roots on, with a fixed and a last affected commit, and a limit where one is given.
fn events(alloc: Global, count: u32, limit: u32) -> Result<List<Event>, Memory> {
    let mut events = List::new(alloc);
    events.push(event(alloc, EventKind::Introduced, "0")?)?;
    events.push(named(alloc, EventKind::Fixed, count - count / 4)?)?;
    events.push(named(alloc, EventKind::LastAffected, count / 2)?)?;
    if limit > 0 {
        events.push(named(alloc, EventKind::Limit, limit)?)?;
    }
    Ok(events)
}

fn no_graph(_fault: GraphFault) -> Memory {
    Memory
}

fn nanoseconds(rt: &HostRuntime, start: &Instant) -> io::Result<u64> {
    let passed = start.elapsed(rt)?;
    Ok(
        passed
            .as_secs()
            .saturating_mul(1_000_000_000)
            .saturating_add(u64::from(passed.subsec_nanos())),
    )
}

// Prints the least, middle and largest of some times.
fn print_range(rt: &HostRuntime, what: &str, times: &mut Vec<u64>) -> io::Result<()> {
    times.sort_unstable();
    let least = times.first().copied().unwrap_or(0);
    let middle = times.get(times.len() / 2).copied().unwrap_or(0);
    let most = times.last().copied().unwrap_or(0);
    println!(rt; "{what}: {least} {middle} {most}")
}

// The times of a fresh set on the graph and of the same set extended to the larger one.
fn one_run<L: Ledger>(
    rt: &HostRuntime,
    events: &[Event],
    graph: &Graph,
    larger: &Graph,
    times: &mut (Vec<u64>, Vec<u64>),
    steps: &mut Steps<L>,
) -> io::Result<u32>
    requires { (known : Known) → StandsFor events.now graph.now known → StandsFor events.now (take (length known.reached) larger.now) known }
{
    let alloc = rt.alloc();
    let start = Instant::now(rt)?;
    let Ok(set) = ImpactSet::fresh(alloc, events, graph, steps) else {
        return Err(io::Error::from(AllocError));
    };
    times.0.push(nanoseconds(rt, &start)?)?;
    let start = Instant::now(rt)?;
    let Ok(set) = set.extend(alloc, events, larger, steps) else {
        return Err(io::Error::from(AllocError));
    };
    times.1.push(nanoseconds(rt, &start)?)?;
    Ok(members(&set))
}

// A set on the graph, and extended to the graph with more rows.
fn print_set<L: Ledger>(
    rt: &HostRuntime,
    what: &str,
    events: &[Event],
    graph: &Graph,
    more: &[CommitRow],
    steps: &mut Steps<L>,
) -> io::Result<()> {
    laws::a_set_stands_for_the_first_rows_of_a_grown_graph();
    let Ok(larger) = graph.extend(rt.alloc(), more, u32::MAX, steps) else {
        return Err(io::Error::from(AllocError));
    };
    let mut times = (Vec::new(rt.alloc()), Vec::new(rt.alloc()));
    let mut has = 0u32;
    for _ in 0..RUNS {
        has = one_run(rt, events, graph, &larger, &mut times, steps)?;
    }
    println!(rt; "{what}, {has} members")?;
    print_range(rt, "  fresh, ns", &mut times.0)?;
    print_range(rt, "  extended, ns", &mut times.1)
}

/// Prints the times of sets over so many commits, without a limit, with one on the last of them, and with one
/// that comes with the commits by which the graph grows.
pub fn print_times<L: Ledger>(
    rt: &HostRuntime,
    count: u32,
    steps: &mut Steps<L>,
) -> io::Result<()> {
    let alloc = rt.alloc();
    let end = count.saturating_add(MORE);
    let rows_so_far = rows(alloc, 1, count).map_err(no_memory)?;
    let more = rows(alloc, count, end).map_err(no_memory)?;
    let graph = Graph::of_rows(alloc, rows_so_far, u32::MAX, steps)
        .map_err(no_graph)
        .map_err(no_memory)?;
    for (what, limit) in [
        ("no limit", 0),
        ("a limit on the last commit", count.saturating_sub(1)),
        ("a limit on a later commit", end.saturating_sub(1)),
    ] {
        let range = events(alloc, count, limit).map_err(no_memory)?;
        print_set(rt, what, range.as_slice(), &graph, more.as_slice(), steps)?;
    }
    Ok(())
}
