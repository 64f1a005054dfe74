//! Reads a call a line and prints what it answers, for pieces of builds and for hits by their sets.
#![tactic(auto)]

mod asked;
mod kept;
mod rows;

ghost use Rattle.std.specs.Prelude.{◌≡◌, ◌≤◌};

use commit_graph::{Graph, GraphFault};
use kept::{Kept, carried, grown, made};
use osv_prim::{Ledger, Memory, Steps, Unkept};
use osv_record::Record;
use rows::{oid, rows_of};
use std::alloc::{AllocError, Global};
use std::io;
use std::sync::Arc;
use std::sync::ledger::Blank;

fn no_memory(_refused: Memory) -> AllocError {
    AllocError
}

// The graph that is there, or the empty one.
fn graph_of(alloc: Global, kept: Option<Kept>) -> Result<Arc<Graph>, Memory> {
    match kept {
        Some(kept) => {
            let Kept { graph, .. } = kept;
            Ok(graph)
        }
        None => Ok(Arc::new(alloc, Graph::empty(alloc)?)?),
    }
}

// The advisory of a JSON text, on the graph that is there.
fn import<L: Ledger>(
    alloc: Global,
    kept: Option<Kept>,
    json: &str,
    steps: &mut Steps<L>,
) -> Result<Option<Kept>, Memory> {
    let Ok(advisory) = Record::read(alloc, json.as_bytes()) else {
        return Ok(None);
    };
    let anew = made(
        alloc,
        Arc::new(alloc, advisory)?,
        graph_of(alloc, kept)?,
        steps,
    )?;
    Ok(Some(anew))
}

fn grow<L: Ledger>(
    alloc: Global,
    kept: Kept,
    text: &str,
    steps: &mut Steps<L>,
) -> Result<Option<Kept>, Memory> {
    let rows = rows_of(alloc, text)?;
    match grown(alloc, kept, rows.as_slice(), steps) {
        Ok(larger) => Ok(Some(larger)),
        Err(GraphFault::Memory) => Err(Memory),
        Err(_) => Ok(None),
    }
}

// How many commits the set covers, and whether it has that of a letter.
fn told(alloc: Global, kept: &Kept, letter: &str) -> Result<String, Memory> {
    let covers = kept.set.covers();
    let number = match oid(letter) {
        Ok(id) => kept.graph.number_of(&id).unwrap_or(covers),
        Err(_) => covers,
    };
    let has = number < covers && kept.set.has(number);
    Ok(format!(in alloc; "{covers} commits, {has}")?)
}

fn changed<L: Ledger>(
    alloc: Global,
    kept: Option<Kept>,
    call: &str,
    rest: &str,
    steps: &mut Steps<L>,
) -> Result<Option<Kept>, Memory> {
    match (call, kept) {
        ("import", kept) => import(alloc, kept, rest, steps),
        ("grow", Some(kept)) => grow(alloc, kept, rest, steps),
        ("carry", Some(kept)) => Ok(Some(carried(alloc, kept, steps)?)),
        (_, kept) => Ok(kept),
    }
}

fn answer<L: Ledger>(
    alloc: Global,
    kept: &Option<Kept>,
    line: &str,
    steps: &mut Steps<L>,
) -> Result<String, Memory> {
    let (call, rest) = line.split_once(' ').unwrap_or((line, ""));
    match (call, kept) {
        ("set", Some(kept)) => told(alloc, kept, rest),
        ("hits", Some(kept)) => asked::hits(alloc, &kept.advisory, &kept.graph, rest, steps),
        ("#", _) => Ok(String::from_str(alloc, line)?),
        (_, None) => Ok(String::from_str(alloc, "nothing")?),
        (_, Some(_)) => Ok(String::from_str(alloc, call)?),
    }
}

fn answer_all<L: Ledger>(rt: &HostRuntime, blank: Blank) -> io::Result<()>
    requires name { blank.name ≡ L.name }
    requires parts { blank.parts ≡ L.parts }
    requires two { 2 ≤ blank.parts }
{
    let mut steps = Steps::<L>::start(rt, blank);
    let mut kept = None;
    for line in rt.lines(rt.alloc()) {
        let line = line?;
        let (call, rest) = line.as_str().split_once(' ').unwrap_or((line.as_str(), ""));
        kept = changed(rt.alloc(), kept, call, rest, &mut steps).map_err(no_memory)?;
        let text = answer(rt.alloc(), &kept, line.as_str(), &mut steps).map_err(no_memory)?;
        println!(rt; "{text}")?;
    }
    Ok(())
}

fn main(rt: HostRuntime) -> io::Result<()> {
    answer_all::<Unkept>(&rt, Blank::new(2))
}
