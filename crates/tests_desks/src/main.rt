//! Reads cases, a line each, and writes what callers of books are answered. Each is a caller of a book that is
//! shared under a lock, but in `own`, where it has one of its own.
//!
//! - `lone REQUESTS` and `own REQUESTS`: the session of one caller.
//! - `between REQUESTS / REQUESTS / REQUESTS`: a session of the first and the last requests. Before the last ones
//!   come, another caller has a session of those between.
//! - `met REQUESTS / REQUESTS / REQUESTS`: the session of one caller, that of another, and a second one of that,
//!   once the pass of the first is joined into its own.
//! - `imported N`: three callers in threads import N advisories each, and their passes are joined.
#![tactic(auto)]

ghost use Rattle.std.specs.Prelude.{◌≡◌, ◌≤◌};

mod importing;
mod meeting;
mod opening;
mod requests;
mod session;

use crate::importing::imported;
use crate::meeting::{between, met};
use crate::session::{lone, own};
use edge_io::WriteEnd;
use osv_prim::{Ledger, Memory, Steps, Unkept};
use std::alloc::AllocError;
use std::io;
use std::sync::Wait;
use std::sync::ledger::Blank;
use std::thread::Threads;

fn no_memory(_refused: Memory) -> AllocError {
    AllocError
}

fn answer<R: Threads + Wait + Sync, L: Ledger, M: Ledger>(
    host: &HostRuntime,
    rt: &R,
    line: &str,
    steps: &mut Steps<L>,
    others: &mut Steps<M>,
) -> Result<(), Memory> {
    let alloc = host.alloc();
    let mut sink = WriteEnd::new(io::writer(host));
    let (case, rest) = line.split_once(' ').unwrap_or((line, ""));
    match case {
        "lone" => lone(rt, alloc, rest, &mut sink, steps),
        "own" => own(alloc, rest, &mut sink, steps),
        "between" => between(rt, alloc, rest, &mut sink, steps, others),
        "met" => met(rt, alloc, rest, &mut sink, steps),
        "imported" => imported(rt, alloc, rest.parse().unwrap_or(0), &mut sink),
        _ => Ok(()),
    }
}

fn answer_all<R: Threads + Wait + Sync, L: Ledger, M: Ledger>(
    host: &HostRuntime,
    rt: &R,
    blank: Blank,
    other: Blank,
) -> io::Result<()>
    requires name { (blank.name ≡ L.name) × (other.name ≡ M.name) }
    requires parts { (blank.parts ≡ L.parts) × (other.parts ≡ M.parts) }
    requires two { (2 ≤ blank.parts) × (2 ≤ other.parts) }
{
    let mut steps = Steps::<L>::start(host, blank);
    let mut others = Steps::<M>::start(host, other);
    for line in host.lines(host.alloc()) {
        let line = line?;
        println!(host; "# {line}")?;
        answer(host, rt, line.as_str(), &mut steps, &mut others).map_err(no_memory)?;
        println!(host;)?;
    }
    Ok(())
}

fn main(rt: HostRuntime) -> io::Result<()> {
    answer_all::<_, Unkept, Unkept>(&rt, &rt, Blank::new(2), Blank::new(2))
}
