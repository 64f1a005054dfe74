ghost use Rattle.std.specs.Prelude.{◌≡◌, ◌≢◌, ◌<◌, ◌≤◌, ◌⊎◌, None, Some, map, IfOk, string_bytes};
ghost use Rattle.std.specs.Io.KnownBytes.{Appends};
ghost use Rattle.edge_io.specs.Causes.{Rose};
ghost use Rattle.command_line.specs.Commands.{command, IsInRange};
ghost use Rattle.drill.specs.Drilled.{drilled};
ghost use Rattle.settings.specs.Ranges.{AreInRange};
ghost use Rattle.session_model.specs.Sessions.{IsWriteFault};
ghost use Rattle.session_model.specs.declared.end.End.TheVariants.{ReadFault};
ghost use Rattle.osv_service.specs.Run.{Declines, Does, Ends, FailsFirst, Prints, Replays, Untouched, WritesFront, status_behind};

use ask::Output;
use command_line::{Command, read};
use desks::OwnDesk;
use drill::drill;
use edge_io::{Sink, Source, write_whole};
use gate::OpenGate;
use http_session::{End, serve_session};
use line_input::ReadStop;
use osv_prim::{Ledger, Steps};
use settings::Settings;
use std::alloc::Global;
use std::mem;

pub(crate) const USAGE: &str =
    "usage: osv_service ask [--input N] ECOSYSTEM NAME [VERSION]\n       osv_service ask [--input N] --commit OID [ECOSYSTEM NAME]\n       osv_service check [--input N]\n       osv_service replay [SETTINGS]\n       osv_service drill SEED SIZE\n       osv_service serve [SETTINGS] [--lanes N] [--helpers N] ADDRESS\n";

/// Does what the words say over a source and a sink, and answers the status: 0 where the whole input
/// was read and answered, 2 where the words are no command, 3 where the source failed, 4 where the
/// sink failed, 5 where the input is refused, and 6 for want of memory. `replay` is refused where its
/// session ends by a request that no other can follow, inside one, or as many were answered as may be. The words of
/// `serve` are no command here.
pub fn run<S: Source, K: Sink, L: Ledger>(
    alloc: Global,
    words: &[String],
    source: &mut S,
    sink: &mut K,
    steps: &mut Steps<L>,
) -> u8
    ensures declines { command (map (λ w. string_bytes w) words.now) ≡ None
        → Declines result (K.held sink.old) (K.held sink.new) (K.faults sink.old) (K.faults sink.new) }
    ensures untouched { command (map (λ w. string_bytes w) words.now) ≡ None
        → Untouched (S.left source.old) (S.left source.new) (S.faults source.old) (S.faults source.new) }
    ensures answers { (c : _) → command (map (λ w. string_bytes w) words.now) ≡ Some c
        → Does c result (S.left source.old) (S.left source.new) (K.held sink.old) (K.held sink.new)
        (S.faults source.old) (S.faults source.new) (K.faults sink.old) (K.faults sink.new) }
{
    match read(alloc, words) {
        Err(_) => 6,
        Ok(None) => decline(sink),
        Ok(Some(command)) => done(alloc, &command, source, sink, steps),
    }
}

fn done<S: Source, K: Sink, L: Ledger>(
    alloc: Global,
    command: &Command,
    source: &mut S,
    sink: &mut K,
    steps: &mut Steps<L>,
) -> u8
    requires { IsInRange command.now }
    ensures { Does command.now result (S.left source.old) (S.left source.new) (K.held sink.old) (K.held sink.new)
        (S.faults source.old) (S.faults source.new) (K.faults sink.old) (K.faults sink.new) }
{
    match command {
        Command::Ask { subject, input } => {
            let output = ask::ask(alloc, subject, *input, source, steps);
            end(sink, output)
        }
        Command::Check { input } => {
            let output = ask::check(alloc, *input, source);
            end(sink, output)
        }
        Command::Replay(settings) => replay(alloc, settings, source, sink, steps),
        Command::Serve { .. } => decline(sink),
        Command::Drill { seed, size } => drilled(alloc, *seed, *size, sink, steps),
    }
}

// Answers the requests of the source, as one session over a new book.
fn replay<S: Source, K: Sink, L: Ledger>(
    alloc: Global,
    settings: &Settings,
    source: &mut S,
    sink: &mut K,
    steps: &mut Steps<L>,
) -> u8
    requires { AreInRange settings.now }
    ensures { Replays settings.now result (S.left source.old) (S.left source.new) (K.held sink.old) (K.held sink.new)
        (S.faults source.old) (S.faults source.new) (K.faults sink.old) (K.faults sink.new)
        ⊎ FailsFirst result (S.left source.old) (S.left source.new) (K.held sink.old) (K.held sink.new) (S.faults source.old) (S.faults source.new) }
{
    let Ok(mut desk) = OwnDesk::new(alloc, *settings) else {
        return 6;
    };
    let session = serve_session(alloc, &mut desk, &OpenGate, source, sink, settings, steps);
    // Its memory goes back with the process, which ends now: faster than block by block.
    mem::forget(desk);
    status_behind(session.end)
}

// Writes the line of a drill.
fn drilled<K: Sink, L: Ledger>(
    alloc: Global,
    seed: u64,
    size: u32,
    sink: &mut K,
    steps: &mut Steps<L>,
) -> u8
    requires { 0 < size }
    ensures { Prints (drilled seed size) 0 result (K.held sink.old) (K.held sink.new) (K.faults sink.old) (K.faults sink.new) }
{
    match drill(alloc, seed, size, steps) {
        Ok(line) => write_out(sink, line.as_bytes(), 0),
        Err(_) => 6,
    }
}

fn status_behind(end: End) -> u8
    ensures status { result ≡ status_behind end }
    ensures source_fault { result ≡ 3 → end ≡ ReadFault }
    ensures sink_fault { result ≡ 4 → IsWriteFault end }
{
    match end {
        End::Ended | End::Asked => 0,
        End::Served | End::Refused(_) | End::Truncated => 5,
        End::ReadFault => 3,
        End::WriteFault { .. } => 4,
        End::Memory => 6,
    }
}

fn decline<K: Sink>(sink: &mut K) -> u8
    ensures { Declines result (K.held sink.old) (K.held sink.new) (K.faults sink.old) (K.faults sink.new) }
{
    write_out(sink, USAGE.as_bytes(), 2)
}

// Writes the output, if the source was read.
fn end<K: Sink>(sink: &mut K, output: Result<Output, ReadStop>) -> u8
    requires { IfOk output (λ o. (o.status ≡ 0) ⊎ (o.status ≡ 5)) }
    ensures { Ends output result (K.held sink.old) (K.held sink.new) (K.faults sink.old) (K.faults sink.new) }
{
    match output {
        Ok(output) => write_out(sink, output.bytes.as_slice(), output.status),
        Err(ReadStop::Source) => 3,
        Err(ReadStop::Memory) => 6,
    }
}

// Writes all the bytes and answers the status, or the front of them and 4.
fn write_out<K: Sink>(sink: &mut K, bytes: &[u8], status: u8) -> u8
    requires { status ≢ 4 }
    ensures whole { result ≢ 4 → Appends (K.held sink.old) (K.held sink.new) bytes.now }
    ensures status { result ≢ 4 → result ≡ status }
    ensures front { WritesFront (K.held sink.old) (K.held sink.new) bytes.now }
    ensures fault { result ≡ 4 → Rose (K.faults sink.old) (K.faults sink.new) }
{
    match write_whole(sink, bytes) {
        Ok(()) => status,
        Err(_) => 4,
    }
}
