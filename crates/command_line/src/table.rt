ghost use Rattle.std.specs.Prelude.{◌≡◌};
ghost use Rattle.command_line.specs.declared.table.Takes.TheVariants.{Number};
ghost use Rattle.command_line.specs.Table.{command_named, option_row, options_of, row_in};

use crate::command::{MAX_HELPERS, MAX_LANES};
use settings::{
    MAX_BODY_BYTES, MAX_COMMITS, MAX_INPUT_BYTES, MAX_KEEP, MAX_PAGE, MAX_REQUESTS,
    MAX_STREAM_BYTES, MAX_WEIGHT, MIN_WEIGHT,
};

/// An option.
#[derive(Clone, Copy, Debug, PartialEq, Eq)]
pub enum OptionName {
    Commit,
    Input,
    Keep,
    Page,
    Weight,
    Commits,
    Body,
    Stream,
    Requests,
    /// `Requests` at `serve`, where it has another default.
    ServeRequests,
    Lanes,
    Helpers,
}

/// The value that an option is used with.
#[derive(Clone, Copy, Debug)]
pub enum Takes {
    Text,
    /// `default` stands where the option is not used.
    Number { least: u64, most: u64, default: u64 },
}

/// How an option is spelled, behind `--`, and the value that it is used with.
#[derive(Clone, Copy, Debug)]
pub struct OptionRow {
    pub spelling: &'static str,
    pub takes: Takes,
}

/// The first word of a command line.
#[derive(Clone, Copy, Debug, PartialEq, Eq)]
pub enum CommandName {
    Ask,
    Check,
    Replay,
    Serve,
    Drill,
}

/// The table of the options.
pub fn option_row(option: OptionName) -> OptionRow
    ensures { row_in result ≡ option_row option }
{
    match option {
        OptionName::Commit => row("commit", Takes::Text),
        OptionName::Input => row("input", number(1, MAX_INPUT_BYTES, MAX_INPUT_BYTES)),
        OptionName::Keep => row("keep", number(1, MAX_KEEP as u64, 8)),
        OptionName::Page => row("page", number(1, MAX_PAGE as u64, 100)),
        OptionName::Weight => row("weight", number(MIN_WEIGHT, MAX_WEIGHT, 1_073_741_824)),
        OptionName::Commits => row("commits", number(1, MAX_COMMITS as u64, MAX_COMMITS as u64)),
        OptionName::Body => row("body", number(1, MAX_BODY_BYTES, MAX_BODY_BYTES)),
        OptionName::Stream => row("stream", number(1, MAX_STREAM_BYTES, MAX_STREAM_BYTES)),
        OptionName::Requests => row("requests", number(1, MAX_REQUESTS, MAX_REQUESTS)),
        OptionName::ServeRequests => row("requests", number(1, MAX_REQUESTS, 1_000)),
        OptionName::Lanes => row("lanes", number(1, MAX_LANES, 4)),
        OptionName::Helpers => row("helpers", number(0, MAX_HELPERS, 2)),
    }
}

fn row(spelling: &'static str, takes: Takes) -> OptionRow
    ensures { (result.spelling ≡ spelling.entry) × (result.takes ≡ takes) }
{
    OptionRow { spelling, takes }
}

fn number(least: u64, most: u64, default: u64) -> Takes
    ensures { result ≡ Number least most default }
{
    Takes::Number {
        least,
        most,
        default,
    }
}

static ASK: [OptionName; 2] = [OptionName::Input, OptionName::Commit];

static CHECK: [OptionName; 1] = [OptionName::Input];

static REPLAY: [OptionName; 7] = [
    OptionName::Keep,
    OptionName::Page,
    OptionName::Weight,
    OptionName::Commits,
    OptionName::Body,
    OptionName::Stream,
    OptionName::Requests,
];

static SERVE: [OptionName; 9] = [
    OptionName::Keep,
    OptionName::Page,
    OptionName::Weight,
    OptionName::Commits,
    OptionName::Body,
    OptionName::Stream,
    OptionName::ServeRequests,
    OptionName::Lanes,
    OptionName::Helpers,
];

static DRILL: [OptionName; 0] = [];

/// The options that a command takes. No two of them may have one spelling.
pub fn options_of(command: CommandName) -> &'static [OptionName]
    ensures { result.now ≡ options_of command }
{
    match command {
        CommandName::Ask => ASK.as_slice(),
        CommandName::Check => CHECK.as_slice(),
        CommandName::Replay => REPLAY.as_slice(),
        CommandName::Serve => SERVE.as_slice(),
        CommandName::Drill => DRILL.as_slice(),
    }
}

/// The command that a word names.
pub fn command_named(word: &str) -> Option<CommandName>
    ensures { result ≡ command_named word.now }
{
    match word {
        "ask" => Some(CommandName::Ask),
        "check" => Some(CommandName::Check),
        "replay" => Some(CommandName::Replay),
        "serve" => Some(CommandName::Serve),
        "drill" => Some(CommandName::Drill),
        _ => None,
    }
}
