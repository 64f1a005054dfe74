//! Tells which security advisories touch a version of a package or a commit (OSV schema 1.6).
#![tactic(auto)]

mod program;
#[cfg(test)]
mod replay_tests;
mod service;
#[cfg(test)]
mod service_tests;
#[cfg(test)]
mod tests;

ghost use Rattle.std.specs.Prelude.{◌≡◌, ◌≤◌, None, Some, map, string_bytes};
ghost use Rattle.command_line.specs.Commands.{command};
ghost use Rattle.osv_service.specs.Run.{Declines, Does, Untouched};

use edge_io::{ReadEnd, Sink, Source, WriteEnd};
use listeners::TcpDoor;
use osv_prim::{Ledger, Steps, Unkept};
pub use program::run;
pub use service::serve;
use serving::RestGate;
use std::alloc::Global;
use std::net::{Net, TcpListener, TcpStream};
use std::process::ExitCode;
use std::sync::Wait;
use std::sync::ledger::Blank;
use std::thread::Threads;
use std::time::Clock;
use std::{env, io};

// The words after the program's name.
fn words_of(rt: &HostRuntime) -> io::Result<Vec<String>> {
    let mut words = Vec::new(rt.alloc());
    for word in env::args(rt)?.skip(1) {
        words.push(word)?;
    }
    Ok(words)
}

// A run whose steps are counted in a new ledger. It promises what `run` does.
fn with_steps<S: Source, K: Sink, L: Ledger>(
    rt: &HostRuntime,
    words: &[String],
    source: &mut S,
    sink: &mut K,
    blank: Blank,
) -> u8
    requires name { blank.name ≡ L.name }
    requires parts { blank.parts ≡ L.parts }
    requires two { 2 ≤ blank.parts }
    ensures declines { command (map (λ w. string_bytes w) words.now) ≡ None
        → Declines result (K.held sink.old) (K.held sink.new) (K.faults sink.old) (K.faults sink.new) }
    ensures untouched { command (map (λ w. string_bytes w) words.now) ≡ None
        → Untouched (S.left source.old) (S.left source.new) (S.faults source.old) (S.faults source.new) }
    ensures answers { (c : _) → command (map (λ w. string_bytes w) words.now) ≡ Some c
        → Does c result (S.left source.old) (S.left source.new) (K.held sink.old) (K.held sink.new)
        (S.faults source.old) (S.faults source.new) (K.faults sink.old) (K.faults sink.new) }
{
    let mut steps = Steps::<L>::start(rt, blank);
    run(rt.alloc(), words, source, sink, &mut steps)
}

// What `serve` comes to over TCP, or 6 for want of memory.
fn serve_tcp<R: Threads + Wait + Sync + Clock + Net<Listener = TcpListener, Stream = TcpStream>>(
    rt: &R,
    host: &HostRuntime,
    alloc: Global,
    words: &[String],
) -> u8 {
    let Ok(mut door) = TcpDoor::new(rt, alloc, u64::MAX) else {
        return 6;
    };
    serve(rt, host, alloc, words, &mut door, &RestGate::new(rt))
}

fn main(rt: HostRuntime) -> ExitCode {
    let words = match words_of(&rt) {
        Ok(words) => words,
        Err(error) => {
            if error.kind() == io::ErrorKind::OutOfMemory {
                return ExitCode::from(6);
            }
            // A word that is not UTF-8 is in no command, and neither is the empty list.
            Vec::new(rt.alloc())
        }
    };
    if words.first().is_some_and(|word| word.as_str() == "serve") {
        let status = serve_tcp(&rt, &rt, rt.alloc(), words.as_slice());
        if status != 2 {
            return ExitCode::from(status);
        }
        // Its words are no command: `run` says so.
    }
    let mut source = ReadEnd::new(rt.reader());
    let mut sink = WriteEnd::new(io::writer(&rt));
    let status = with_steps::<_, _, Unkept>(
        &rt,
        words.as_slice(),
        &mut source,
        &mut sink,
        Blank::new(2),
    );
    ExitCode::from(status)
}
