//! Reads a call a line and prints what it answers, for the crates that read advisories.
#![tactic(auto)]

mod ends;
mod small;
mod values;

ghost use Rattle.std.specs.Prelude.{◌≡◌, ◌≤◌};

use osv_prim::{Ledger, Steps, Unkept};
use std::alloc::AllocError;
use std::io;
use std::sync::ledger::Blank;

fn answer<L: Ledger>(
    rt: &HostRuntime,
    line: &str,
    steps: &mut Steps<L>,
) -> Result<String, AllocError> {
    let (call, rest) = line.split_once(' ').unwrap_or((line, ""));
    match call {
        "id" => values::id(rt.alloc(), rest),
        "key" => values::key(rt.alloc(), rest),
        "match" => values::matched(rt.alloc(), rest),
        "read" => values::record(rt.alloc(), rest),
        "hits" => values::hits_of(rt.alloc(), rest, steps),
        "small" => small::made(rt.alloc()),
        "packed" => small::in_one_block(rt.alloc()),
        "copies" => small::copied(rt.alloc()),
        "numbers" => small::numbers(rt.alloc()),
        "ends" => ends::moved(rt.alloc()),
        _ => String::from_str(rt.alloc(), line),
    }
}

fn answer_all<L: Ledger>(rt: &HostRuntime, blank: Blank) -> io::Result<()>
    requires name { blank.name ≡ L.name }
    requires parts { blank.parts ≡ L.parts }
    requires two { 2 ≤ blank.parts }
{
    let mut steps = Steps::<L>::start(rt, blank);
    for line in rt.lines(rt.alloc()) {
        let line = line?;
        let answer = answer(rt, line.as_str(), &mut steps)?;
        println!(rt; "{answer}")?;
    }
    Ok(())
}

fn main(rt: HostRuntime) -> io::Result<()> {
    answer_all::<Unkept>(&rt, Blank::new(2))
}
