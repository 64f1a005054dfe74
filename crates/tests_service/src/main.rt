//! Reads lines `LANES HELPERS CLIENTS TURNS`: so many lanes and helpers of a service, and one or two clients in memory.
//! The first client imports an advisory with two GIT ranges and publishes, and a gate holds the piece of the first range
//! until that of the second is done, or for so many turns. The second client sends a query once the gate holds. Prints
//! whether each got its answer while the other was at work, and whether the turns ran out.
#![tactic(auto)]

mod client;
mod service;

use crate::service::{Case, run};
use std::io;
use std::sync::Wait;
use std::thread::Threads;

fn case_of(line: &str) -> Option<Case> {
    let (lanes, rest) = line.split_once(' ')?;
    let (helpers, rest) = rest.split_once(' ')?;
    let (clients, turns) = rest.split_once(' ')?;
    Some(Case {
        lanes: lanes.parse().ok()?,
        helpers: helpers.parse().ok()?,
        clients: clients.parse().ok()?,
        turns: turns.parse().ok()?,
    })
}

fn answer_all<R: Threads + Wait + Sync + 'static>(host: &HostRuntime, rt: &R) -> io::Result<()> {
    for line in host.lines(host.alloc()) {
        match case_of(line?.as_str()) {
            Some(case) => println!(host; "{}", run(host, rt, case)?)?,
            None => println!(host; "no case")?,
        }
    }
    Ok(())
}

fn main(rt: HostRuntime) -> io::Result<()> {
    answer_all(&rt, &rt)
}
