//! Reads imports, publications and queries, a line each, and prints what the newest snapshot answers.
#![tactic(auto)]

mod asked;
mod made;
mod pieces;

ghost use Rattle.std.specs.Prelude.{◌≡◌, ◌≤◌};

use made::Store;
use osv_prim::{Ledger, Memory, Steps, Unkept};
use std::alloc::{AllocError, Global};
use std::io;
use std::sync::ledger::Blank;

fn no_memory(_refused: Memory) -> AllocError {
    AllocError
}

fn answer<L: Ledger>(
    alloc: Global,
    store: &mut Store,
    line: &str,
    steps: &mut Steps<L>,
) -> Result<String, Memory> {
    let (call, rest) = line.split_once(' ').unwrap_or((line, ""));
    match call {
        "import" => store.import(alloc, rest),
        "publish" => store.publish(alloc, steps),
        "find" => asked::found(alloc, &store.snapshot, rest),
        "pages" => asked::pages(alloc, &store.snapshot, rest, steps),
        "commit" => asked::of_commit(alloc, &store.snapshot, steps),
        _ => Ok(String::from_str(alloc, line)?),
    }
}

fn answer_all<L: Ledger>(rt: &HostRuntime, blank: Blank) -> io::Result<()>
    requires name { blank.name ≡ L.name }
    requires parts { blank.parts ≡ L.parts }
    requires two { 2 ≤ blank.parts }
{
    let mut steps = Steps::<L>::start(rt, blank);
    let mut store = Store::new(rt.alloc()).map_err(no_memory)?;
    for line in rt.lines(rt.alloc()) {
        let line = line?;
        let text = answer(rt.alloc(), &mut store, line.as_str(), &mut steps).map_err(no_memory)?;
        println!(rt; "{text}")?;
    }
    Ok(())
}

fn main(rt: HostRuntime) -> io::Result<()> {
    answer_all::<Unkept>(&rt, Blank::new(2))
}
