ghost use Rattle.std.specs.Prelude.{◌≡◌};
ghost use Rattle.fast_export.specs.Facts.{names, plain_command, named_command, other_command, opens};

use crate::fault::StreamFault;
use crate::grammar::Command;
use crate::line::begins;

// A word, a space, and a text that is not empty.
fn names(word: &[u8], line: &[u8]) -> bool
    ensures { result ≡ names word.now line.now }
{
    begins(word, line) && line.len() != word.len()
}

#[tactic(auto, unfolding(crate::specs::Facts::plain_command))]
fn plain_command(line: &[u8]) -> Option<Command>
    ensures { result ≡ plain_command line.now }
{
    if line.is_empty() {
        Some(Command::Note)
    } else if line == b"blob".as_slice() {
        Some(Command::Blob)
    } else if line == b"checkpoint".as_slice() {
        Some(Command::Note)
    } else if line == b"done".as_slice() {
        Some(Command::Done)
    } else if line == b"feature done".as_slice() {
        Some(Command::Promise)
    } else {
        None
    }
}

#[tactic(auto, unfolding(crate::specs::Facts::named_command))]
fn named_command(line: &[u8]) -> Option<Command>
    ensures { result ≡ named_command line.now }
{
    if names(b"tag ", line) {
        Some(Command::Tag)
    } else if names(b"reset ", line) {
        Some(Command::Reset)
    } else if names(b"feature ", line) {
        Some(Command::Note)
    } else if names(b"option ", line) {
        Some(Command::Note)
    } else if names(b"progress ", line) {
        Some(Command::Note)
    } else {
        None
    }
}

#[tactic(auto, unfolding(crate::specs::Facts::other_command))]
fn other_command(line: &[u8]) -> Option<Command>
    ensures { result ≡ other_command line.now }
{
    match plain_command(line) {
        Some(command) => Some(command),
        None => named_command(line),
    }
}

/// The command that a line, which begins at `at`, begins. So many commits came before it, and at most
/// `most` may come.
#[tactic(auto, unfolding(crate::specs::Facts::opens))]
pub(crate) fn opens(most: u32, count: usize, line: &[u8], at: u64) -> Result<Command, StreamFault>
    ensures { result ≡ opens most count at line.now }
{
    if names(b"commit ", line) {
        if most as usize <= count {
            return Err(StreamFault::TooManyCommits { at });
        }
        return Ok(Command::Commit);
    }
    match other_command(line) {
        Some(command) => Ok(command),
        None => Err(StreamFault::BadLine { at }),
    }
}
