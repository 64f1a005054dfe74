ghost use Rattle.std.specs.Prelude.{◌≡◌, ◌⊎◌, ◌≤◌, Some, map, string_bytes};
ghost use Rattle.edge_io.specs.Causes.{Rose};
ghost use Rattle.settings.specs.Ranges.{AreInRange};
ghost use Rattle.command_line.specs.Commands.{command, IsInRange};
ghost use Rattle.serving.specs.Serving.{HasEnded};
ghost use Rattle.osv_service.specs.Service.{ServesBy};

use command_line::{Command, read};
use gate::Gate;
use listeners::Listener;
use serving::Crew;
use settings::Settings;
use std::alloc::Global;
use std::sync::Wait;
use std::thread::Threads;

/// Serves the connections of a listener as the words say, and answers the status: 0 where all lanes have ended, 2 where
/// the words are none of `serve`, 3 where the address could not be opened, and 6 for want of memory. It writes nothing.
///
/// `host` is the same runtime as `rt`: a counter of steps takes it.
pub fn serve<L: Listener, G: Gate, R: Threads + Wait + Sync>(
    rt: &R,
    host: &HostRuntime,
    alloc: Global,
    words: &[String],
    listener: &mut L,
    gate: &G,
) -> u8
    ensures { ServesBy (command (map (λ w. string_bytes w) words.now)) result
        (L.faults listener.old) (L.faults listener.new) (L.closed listener.old) (L.closed listener.new) }
{
    match read(alloc, words) {
        Err(_) => 6,
        Ok(None) => 2,
        Ok(Some(command)) => by_command(rt, host, alloc, &command, listener, gate),
    }
}

fn by_command<L: Listener, G: Gate, R: Threads + Wait + Sync>(
    rt: &R,
    host: &HostRuntime,
    alloc: Global,
    command: &Command,
    listener: &mut L,
    gate: &G,
) -> u8
    requires { IsInRange command.now }
    ensures { ServesBy (Some command.now) result (L.faults listener.old) (L.faults listener.new) (L.closed listener.old) (L.closed listener.new) }
{
    match command {
        Command::Serve {
            settings,
            lanes,
            helpers,
            address,
        } => {
            let crew = Crew {
                lanes: *lanes,
                helpers: *helpers,
            };
            open_and_serve(
                rt,
                host,
                alloc,
                settings,
                crew,
                address.as_str(),
                listener,
                gate,
            )
        }
        Command::Ask { .. } | Command::Check { .. } | Command::Replay(_) | Command::Drill { .. } =>
            2,
    }
}

fn open_and_serve<L: Listener, G: Gate, R: Threads + Wait + Sync>(
    rt: &R,
    host: &HostRuntime,
    alloc: Global,
    settings: &Settings,
    crew: Crew,
    address: &str,
    listener: &mut L,
    gate: &G,
) -> u8
    requires { AreInRange settings.now }
    ensures answers { (result ≡ 0) ⊎ (result ≡ 3) ⊎ (result ≡ 6) }
    ensures unopened { result ≡ 3 → Rose (L.faults listener.old) (L.faults listener.new) }
    ensures ended { result ≡ 0 → HasEnded (L.faults listener.old) (L.faults listener.new) (L.closed listener.old) (L.closed listener.new) }
{
    let Ok(()) = listener.listen(address) else {
        return 3;
    };
    match serving::serve(rt, host, alloc, settings, crew, listener, gate) {
        Ok(()) => 0,
        Err(_) => 6,
    }
}
