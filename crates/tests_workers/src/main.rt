//! Reads cases, a line each, and prints what workers did. `alone N MOST..`: a caller alone imports N
//! advisories and opens a build, where there is one to be made, and then drains at most so many jobs, again
//! and again. `held MOST`: it keeps a job to itself meanwhile. `helped N`: another thread helps while a
//! caller imports an advisory, opens a build and waits for its snapshot, N times.
#![tactic(auto)]

ghost use Rattle.std.specs.Prelude.{◌≡◌, ◌≤◌};

mod alone;
mod build;
mod helped;
mod shared;

use crate::alone::{drained, held, pieces};
use crate::helped::helped;
use crate::shared::shared;
use osv_prim::{Ledger, Memory, Steps, Unkept};
use std::alloc::AllocError;
use std::io;
use std::sync::Wait;
use std::sync::ledger::Blank;
use std::thread::Threads;

fn no_memory(_refused: Memory) -> AllocError {
    AllocError
}

fn answer<R: Threads + Wait + Sync, L: Ledger + Send>(
    host: &HostRuntime,
    rt: &R,
    line: &str,
    steps: &mut Steps<L>,
) -> Result<String, Memory> {
    let alloc = host.alloc();
    let (case, rest) = line.split_once(' ').unwrap_or((line, ""));
    match case {
        "alone" => drained(alloc, rest, steps),
        "pieces" => pieces(alloc, rest, steps),
        "held" => held(alloc, rest.parse().unwrap_or(0), steps),
        "helped" => helped(rt, alloc, rest.parse().unwrap_or(0), steps),
        "shared" => shared(host, rt, rest.parse().unwrap_or(0), steps),
        _ => Ok(String::from_str(alloc, "no case")?),
    }
}

fn answer_all<R: Threads + Wait + Sync, L: Ledger + Send>(
    host: &HostRuntime,
    rt: &R,
    blank: Blank,
) -> io::Result<()>
    requires name { blank.name ≡ L.name }
    requires parts { blank.parts ≡ L.parts }
    requires two { 2 ≤ blank.parts }
{
    let mut steps = Steps::<L>::start(host, blank);
    for line in host.lines(host.alloc()) {
        let text = answer(host, rt, line?.as_str(), &mut steps).map_err(no_memory)?;
        println!(host; "{text}")?;
    }
    Ok(())
}

fn main(rt: HostRuntime) -> io::Result<()> {
    answer_all::<_, Unkept>(&rt, &rt, Blank::new(2))
}
