//! Reads lines `CALLERS STEPS SEED`: so many callers of one shared book, in threads of their own, take so many steps
//! each, at random: they import, look at snapshots, and ask for jobs of a publication, which they do or give back.
//! Prints whether the history and the snapshots are what the callers were told.
#![tactic(auto)]

ghost use Rattle.std.specs.Prelude.{◌≡◌, ◌≤◌};

mod callers;
mod entries;
mod log;
mod random;
mod replay;

use crate::callers::{Plan, compare};
use osv_prim::{Ledger, Steps, Unkept};
use std::io;
use std::sync::Wait;
use std::sync::ledger::Blank;
use std::thread::Threads;

fn plan_of(line: &str) -> Option<Plan> {
    let (callers, rest) = line.split_once(' ')?;
    let (steps, seed) = rest.split_once(' ')?;
    Some(Plan {
        callers: callers.parse().ok()?,
        steps: steps.parse().ok()?,
        seed: seed.parse().ok()?,
    })
}

fn answer_all<R: Threads + Wait + Sync, L: Ledger>(
    host: &HostRuntime,
    rt: &R,
    blank: Blank,
) -> io::Result<()>
    requires name { blank.name ≡ L.name }
    requires parts { blank.parts ≡ L.parts }
    requires two { 2 ≤ blank.parts }
{
    let mut steps = Steps::<L>::start(host, blank);
    for line in host.lines(host.alloc()) {
        let told = match plan_of(line?.as_str()) {
            Some(plan) => compare(host, rt, plan, &mut steps).unwrap_or("no memory"),
            None => "no case",
        };
        println!(host; "{told}")?;
    }
    Ok(())
}

fn main(rt: HostRuntime) -> io::Result<()> {
    answer_all::<_, Unkept>(&rt, &rt, Blank::new(2))
}
