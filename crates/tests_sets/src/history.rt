use crate::kept::{Kept, begun, differences, grown, has};
use crate::range::events_of;
use crate::rows::{name_of, rows_of};
use commit_graph::GraphFault;
use osv_prim::{Ledger, Memory, Steps};
use std::alloc::Global;

// The names of the set's commits, and how many commits are told otherwise by a fresh set or by the plain
// function, where there are some.
fn told<L: Ledger>(
    alloc: Global,
    kept: &Kept,
    text: &mut String,
    steps: &mut Steps<L>,
) -> Result<(), Memory> {
    for number in 0..kept.graph.len() {
        if has(&kept.set, number) {
            let name = name_of(alloc, &kept.graph.row_at(number, steps).oid)?;
            text.push(' ')?;
            text.push_str(name.as_str())?;
        }
    }
    let count = differences(alloc, kept, steps)?;
    if count > 0 {
        text.push_str(format!(in alloc; " {count} differ")?.as_str())?;
    }
    Ok(())
}

/// `EVENTS / ROWS / ROWS ..`: the set on the rows of each step and all before it.
pub fn answer_of<L: Ledger>(
    alloc: Global,
    line: &str,
    steps: &mut Steps<L>,
) -> Result<String, Memory> {
    let (range, rest) = line.split_once(" / ").unwrap_or((line, ""));
    let mut kept = begun(alloc, events_of(alloc, range)?, steps)?;
    let mut text = String::from_str(alloc, "range")?;
    for part in rest.split(" / ") {
        let rows = rows_of(alloc, part)?;
        match grown(alloc, kept, rows.as_slice(), steps) {
            Ok(larger) => kept = larger,
            Err(GraphFault::Memory) => return Err(Memory),
            Err(fault) => {
                let name = fault.name();
                return Ok(format!(in alloc; "{text} {name}")?);
            }
        }
        text.push_str(" /")?;
        told(alloc, &kept, &mut text, steps)?;
    }
    Ok(text)
}
