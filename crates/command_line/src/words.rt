ghost use Rattle.std.specs.Prelude.{◌≡◌, ◌⊎◌, IfOk, IfSome, map, string_bytes};
ghost use Rattle.clap.specs.Words.{found_of, rows_of};
ghost use Rattle.settings.specs.Ranges.{AreInRange};
ghost use Rattle.command_line.specs.Commands.{IsInRange, ask_of, check_of, command, command_of, replay_of, serve_of, settings_of, drill_of};

use crate::command::Command;
use crate::matched::{given, operands};
use crate::number::number_of;
use crate::operands::{address_of, drill_asked, is_bare, subject_of};
use crate::table::{CommandName, OptionName, command_named};
use clap::ArgMatches;
use osv_prim::Memory;
use settings::Settings;
use std::alloc::Global;

/// The command that the words are, or none where they are outside the grammar.
pub fn read(alloc: Global, words: &[String]) -> Result<Option<Command>, Memory>
    ensures value { IfOk result (λ c. c ≡ command (map (λ w. string_bytes w) words.now)) }
    ensures range { IfOk result (λ c. IfSome c IsInRange) }
{
    let [first, behind @ ..] = words else {
        return Ok(None);
    };
    let Some(name) = command_named(first.as_str()) else {
        return Ok(None);
    };
    let Some(matches) = given(alloc, name, behind)? else {
        return Ok(None);
    };
    command_of(alloc, name, &matches)
}

fn command_of(
    alloc: Global,
    name: CommandName,
    matches: &ArgMatches<'_>,
) -> Result<Option<Command>, Memory>
    ensures range { IfOk result (λ c. IfSome c IsInRange) }
    ensures value { IfOk result (λ c. c ≡ command_of name (rows_of (found_of matches.now))) }
{
    match name {
        CommandName::Ask => ask_of(alloc, matches),
        CommandName::Check => Ok(check_of(matches)),
        CommandName::Replay => Ok(replay_of(matches)),
        CommandName::Serve => serve_of(alloc, matches),
        CommandName::Drill => Ok(drill_of(matches)),
    }
}

fn ask_of(alloc: Global, matches: &ArgMatches<'_>) -> Result<Option<Command>, Memory>
    ensures range { IfOk result (λ c. IfSome c IsInRange) }
    ensures value { IfOk result (λ c. c ≡ ask_of (rows_of (found_of matches.now))) }
{
    let Some(input) = number_of(matches, OptionName::Input) else {
        return Ok(None);
    };
    match subject_of(alloc, matches)? {
        Some(subject) => Ok(Some(Command::Ask { subject, input })),
        None => Ok(None),
    }
}

fn check_of(matches: &ArgMatches<'_>) -> Option<Command>
    ensures range { IfSome result IsInRange }
    ensures value { result ≡ check_of (rows_of (found_of matches.now)) }
{
    let input = number_of(matches, OptionName::Input)?;
    if !is_bare(operands(matches)) {
        return None;
    }
    Some(Command::Check { input })
}

fn replay_of(matches: &ArgMatches<'_>) -> Option<Command>
    ensures range { IfSome result IsInRange }
    ensures value { result ≡ replay_of (rows_of (found_of matches.now)) }
{
    let settings = settings_of(matches, OptionName::Requests)?;
    if !is_bare(operands(matches)) {
        return None;
    }
    Some(Command::Replay(settings))
}

fn serve_of(alloc: Global, matches: &ArgMatches<'_>) -> Result<Option<Command>, Memory>
    ensures range { IfOk result (λ c. IfSome c IsInRange) }
    ensures value { IfOk result (λ c. c ≡ serve_of (rows_of (found_of matches.now))) }
{
    let Some(settings) = settings_of(matches, OptionName::ServeRequests) else {
        return Ok(None);
    };
    let Some(lanes) = number_of(matches, OptionName::Lanes) else {
        return Ok(None);
    };
    let Some(helpers) = number_of(matches, OptionName::Helpers) else {
        return Ok(None);
    };
    match address_of(alloc, operands(matches))? {
        Some(address) => Ok(Some(Command::Serve {
            settings,
            lanes,
            helpers,
            address,
        })),
        None => Ok(None),
    }
}

fn drill_of(matches: &ArgMatches<'_>) -> Option<Command>
    ensures range { IfSome result IsInRange }
    ensures value { result ≡ drill_of (rows_of (found_of matches.now)) }
{
    drill_asked(operands(matches))
}

// The settings; `asked` is the command's option of the requests in a session.
fn settings_of(matches: &ArgMatches<'_>, asked: OptionName) -> Option<Settings>
    requires { (asked ≡ OptionName.Requests) ⊎ (asked ≡ OptionName.ServeRequests) }
    ensures range { IfSome result AreInRange }
    ensures value { result ≡ settings_of asked (rows_of (found_of matches.now)) }
{
    let keep = number_of(matches, OptionName::Keep)?;
    let page = number_of(matches, OptionName::Page)?;
    let weight = number_of(matches, OptionName::Weight)?;
    let commits = number_of(matches, OptionName::Commits)?;
    let body = number_of(matches, OptionName::Body)?;
    let stream = number_of(matches, OptionName::Stream)?;
    let requests = number_of(matches, asked)?;
    Some(Settings {
        weight,
        body,
        stream,
        requests,
        keep: keep as u32,
        page: page as u32,
        commits: commits as u32,
    })
}
