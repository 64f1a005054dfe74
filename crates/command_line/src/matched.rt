ghost use Rattle.std.specs.Prelude.{◌≡◌, IfOk, map, option_map, string_bytes, fold};
ghost use Rattle.clap.specs.Words.{app_of, first_of, found_of, rows_of};
ghost use Rattle.command_line.specs.Commands.{listed, operands};
ghost use Rattle.command_line.specs.Grammar.{bare, given, with_option};

use crate::table::{CommandName, OptionName, option_row, options_of};
use clap::error::ErrorKind;
use clap::{Arg, ArgAction, ArgMatches, Command};
use osv_prim::Memory;
use std::alloc::{AllocError, Global};

/// What `clap` finds in the words behind the first, or none where it refuses them.
pub fn given<'a>(
    alloc: Global,
    name: CommandName,
    words: &'a [String],
) -> Result<Option<ArgMatches<'a>>, Memory>
    ensures { IfOk result (λ m. option_map (λ m. rows_of (found_of m)) m ≡ given name (map (λ w. string_bytes w) words.entry.now)) }
{
    let app = with_options(bare(alloc)?, alloc, options_of(name))?;
    match app.try_get_matches_from(words) {
        Ok(matches) => Ok(Some(matches)),
        Err(error) => match error.kind() {
            ErrorKind::OutOfMemory => Err(Memory),
            _ => Ok(None),
        },
    }
}

/// The value of an option, as it is written.
pub fn text_of<'a>(matches: &ArgMatches<'a>, name: &str) -> Option<&'a str>
    ensures { option_map (λ s. s.now) result ≡ first_of name.now (rows_of (found_of matches.now)) }
{
    matches.get_str(name)
}

/// The operands, in order, or none or an empty list where there are none.
pub fn operands<'m, 'a>(matches: &'m ArgMatches<'a>) -> Option<&'m [&'a str]>
    ensures { listed result ≡ operands (rows_of (found_of matches.now)) }
{
    matches.get_strs("operands")
}

fn with_options<'a>(
    command: Command<'a>,
    alloc: Global,
    options: &'static [OptionName],
) -> Result<Command<'a>, AllocError>
    ensures { IfOk result (λ c. app_of c ≡ fold with_option (app_of command.entry) options.entry.now) }
{
    let mut command = command;
    for option in options {
        command = with_option(command, alloc, *option)?;
    }
    Ok(command)
}

fn with_option<'a>(
    command: Command<'a>,
    alloc: Global,
    option: OptionName,
) -> Result<Command<'a>, AllocError>
    ensures { IfOk result (λ c. app_of c ≡ with_option (app_of command.entry) option) }
{
    let name: &'a str = option_row(option).spelling;
    command.arg(Arg::new(alloc, name).long(name).action(ArgAction::Set))
}

fn bare<'a>(alloc: Global) -> Result<Command<'a>, AllocError>
    ensures { IfOk result (λ c. app_of c ≡ bare) }
{
    let operands = Arg::new(alloc, "operands").action(ArgAction::Append);
    Command::new(alloc, "osv_service")
        .no_binary_name(true)
        .disable_help_flag(true)
        .disable_version_flag(true)
        .arg(operands)
}
