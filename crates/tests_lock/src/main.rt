//! Reads lines `CALLERS TURNS YIELDS`: so many callers of one lock, in threads of their own, add so many entries each,
//! every one with so many yields while it has the turn. Prints whether the lock's value has what they were told. With
//! such a line as its argument it does this once, and prints how many nanoseconds it took.
#![tactic(auto)]

mod caller;
mod calls;
mod journal;
mod lanes;

use crate::lanes::{Lanes, run};
use std::alloc::Global;
use std::sync::Wait;
use std::thread::Threads;
use std::time::Instant;
use std::{env, io};

fn lanes_of(line: &str) -> Option<Lanes> {
    let (callers, rest) = line.split_once(' ')?;
    let (turns, yields) = rest.split_once(' ')?;
    Some(Lanes {
        turns: turns.parse().ok()?,
        callers: callers.parse().ok()?,
        yields: yields.parse().ok()?,
    })
}

fn answer<R: Threads + Wait + Sync>(rt: &R, alloc: Global, line: &str) -> &'static str {
    match lanes_of(line).map(|lanes| run(rt, alloc, lanes)) {
        None => "no case",
        Some(Some(true)) => "all entries stand as they were told",
        Some(Some(false)) => "the entries are others",
        Some(None) => "no memory",
    }
}

fn main(rt: HostRuntime) -> io::Result<()> {
    if let Some(line) = env::args(&rt)?.nth(1) {
        let start = Instant::now(&rt)?;
        let told = answer(&rt, rt.alloc(), line.as_str());
        let took = start.elapsed(&rt)?;
        println!(rt; "{} ns, {told}", took.as_nanos())?;
        return Ok(());
    }
    for line in rt.lines(rt.alloc()) {
        println!(rt; "{}", answer(&rt, rt.alloc(), line?.as_str()))?;
    }
    Ok(())
}
