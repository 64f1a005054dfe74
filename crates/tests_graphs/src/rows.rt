use commit_graph::{Graph, GraphFault};
use osv_prim::{CommitRow, Ledger, List, Memory, NotAnId, Oid, Steps};
use std::alloc::Global;

/// The id of forty times a letter.
pub fn oid(letter: &str) -> Result<Oid, NotAnId> {
    let mut text = [b'?'; 40];
    if let [byte] = letter.as_bytes() {
        text = [*byte; 40];
    }
    Oid::read(text.as_slice())
}

// `c=ab` is the row of c, whose parents are a and b.
fn row_of(alloc: Global, text: &str) -> Result<Option<CommitRow>, Memory> {
    let (letter, of) = text.split_once('=').unwrap_or((text, ""));
    let Ok(id) = oid(letter) else {
        return Ok(None);
    };
    let mut parents = List::new(alloc);
    for byte in of.as_bytes() {
        if let Ok(parent) = Oid::read([*byte; 40].as_slice()) {
            parents.push(parent)?;
        }
    }
    Ok(Some(CommitRow { oid: id, parents }))
}

/// `MOST ROW ROW ..` joined to the graph, or what is wrong with them.
pub fn extended<L: Ledger>(
    alloc: Global,
    graph: &Graph,
    text: &str,
    steps: &mut Steps<L>,
) -> Result<Result<Graph, String>, Memory> {
    let (most, rest) = text.split_once(' ').unwrap_or((text, ""));
    let mut rows = Vec::new(alloc);
    for part in rest.split(' ') {
        if let Some(row) = row_of(alloc, part)? {
            rows.push(row)?;
        }
    }
    match graph.extend(
        alloc,
        rows.as_slice(),
        most.parse::<u32>().unwrap_or(0),
        steps,
    ) {
        Ok(larger) => Ok(Ok(larger)),
        Err(GraphFault::Memory) => Err(Memory),
        Err(fault) => {
            let code = fault.code();
            let name = fault.name();
            let row = fault.row();
            Ok(Err(format!(in alloc; "{code} {name} at row {row}")?))
        }
    }
}

/// How many rows a graph has, and what it weighs.
pub fn size(alloc: Global, graph: &Graph) -> Result<String, Memory> {
    let rows = graph.len();
    let weight = graph.weight();
    Ok(format!(in alloc; "{rows} rows, weight {weight}")?)
}

/// The number of a commit's row, those of its parents, and how many ids of parents the row has.
pub fn row<L: Ledger>(
    alloc: Global,
    graph: &Graph,
    letter: &str,
    steps: &mut Steps<L>,
) -> Result<String, Memory> {
    let Ok(id) = oid(letter) else {
        return Ok(String::from_str(alloc, "no id")?);
    };
    let Some(number) = graph.number_of(&id) else {
        return Ok(String::from_str(alloc, "not there")?);
    };
    let parents = graph.row_at(number, steps).parents.len();
    let mut text = format!(in alloc; "row {number}, {parents} parents:")?;
    for parent in graph.parents_at(number, steps) {
        let next = format!(in alloc; " {parent}")?;
        text.push_str(next.as_str())?;
    }
    Ok(text)
}
