//! Reads a history a line and prints the sets of affected commits that a GIT range has at each step of it.
//! With a number it prints what sets over so many commits cost.
#![tactic(auto)]

mod history;
mod kept;
mod made;
mod range;
mod rows;
mod timing;

ghost use Rattle.std.specs.Prelude.{◌≡◌, ◌≤◌};

use osv_prim::{Ledger, Memory, Steps, Unkept};
use std::alloc::{AllocError, Global};
use std::sync::ledger::Blank;
use std::{env, io};

fn no_memory(_refused: Memory) -> AllocError {
    AllocError
}

fn answer<L: Ledger>(alloc: Global, line: &str, steps: &mut Steps<L>) -> Result<String, Memory> {
    let (call, rest) = line.split_once(' ').unwrap_or((line, ""));
    match call {
        "range" => history::answer_of(alloc, rest, steps),
        "made" => made::answer_of(alloc, rest, steps),
        _ => Ok(String::from_str(alloc, line)?),
    }
}

fn answer_all<L: Ledger>(rt: &HostRuntime, blank: Blank) -> io::Result<()>
    requires name { blank.name ≡ L.name }
    requires parts { blank.parts ≡ L.parts }
    requires two { 2 ≤ blank.parts }
{
    let mut steps = Steps::<L>::start(rt, blank);
    if let Some(word) = env::args(rt)?.skip(1).next() {
        let count = word.as_str().parse::<u32>().unwrap_or(0);
        return timing::print_times(rt, count, &mut steps);
    }
    for line in rt.lines(rt.alloc()) {
        let line = line?;
        let text = answer(rt.alloc(), line.as_str(), &mut steps).map_err(no_memory)?;
        println!(rt; "{text}")?;
    }
    Ok(())
}

fn main(rt: HostRuntime) -> io::Result<()> {
    answer_all::<Unkept>(&rt, Blank::new(2))
}
