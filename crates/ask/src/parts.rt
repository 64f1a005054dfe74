ghost use Rattle.std.specs.Prelude.{◌≡◌, ◌≤◌, List, ℕ, IfErr, IfOk, IsErrOf, OnOk, option_map, codes};
ghost use Rattle.std.specs.Str.{bytes_eq};
ghost use Rattle.edge_io.specs.Causes.{Rose};
ghost use Rattle.osv_prim.specs.Results.{Fails};
ghost use Rattle.line_input.specs.Lines.{numbered};
ghost use Rattle.line_input.specs.Reader.{KnowsEnd, StandsIn, line_pair};
ghost use Rattle.ask.specs.Line.{read_line};
ghost use Rattle.ask.specs.Parts.{divided, text_in, url_of};
ghost use Rattle.ask.specs.Stops.{KeepsLine, MindsRepo, ReadsParts, Stops};

use crate::line::{LineFault, read_line};
use crate::stop::InputStop;
use edge_io::Source;
use evaluate::GitImports;
use line_input::{LineReader, Next, NumberedLine, ReadStop};
use osv_prim::{RepoKey, Stop};
use osv_record::Buffers;
use std::alloc::Global;

/// What is kept of the advisories of an input, and the key of the repository that it names behind them.
#[derive(Drop)]
pub struct ReadParts {
    pub kept: GitImports,
    pub repo: Option<RepoKey>,
}

/// Reads the advisories of an input up to the line that names a repository, and stands behind that line
/// then. The reader stands at the front of the input before.
pub fn read_parts<S: Source>(
    alloc: Global,
    reader: &mut LineReader,
    source: &mut S,
) -> Result<ReadParts, InputStop>
    requires { reader.old.passed ≡ 0 }
    ensures reads { IfOk result (λ p. (input : List ℕ) → StandsIn input reader.old (S.left source.old) → ReadsParts input (divided input (numbered 1 input)) p reader.new (S.left source.new)) }
    ensures stops { IfErr result (λ e. (input : List ℕ) → StandsIn input reader.old (S.left source.old) → Stops input (divided input (numbered 1 input)) e reader.new (S.left source.new)) }
    ensures end { IfOk result (λ p. KnowsEnd reader.old (S.left source.old) → MindsRepo p.repo reader.new (S.left source.new)) }
    ensures limit { reader.new.limit ≡ reader.old.limit }
    ensures failed { IsErrOf result (InputStop.Read ReadStop.Source) → Rose (S.faults source.old) (S.faults source.new) }
    ensures later { S.faults source.old ≤ S.faults source.new }
{
    let mut buffers = Buffers::new(alloc);
    let mut kept = GitImports::new(alloc);
    'lines: loop {
        match reader.next(source)? {
            Next::Here => {}
            Next::End => return Ok(ReadParts { kept, repo: None }),
            Next::TooLarge => return Err(InputStop::TooLarge),
        }
        let line = reader.line();
        if let Some(url) = url_of(line.text) {
            let key = RepoKey::normal(alloc, url)?;
            return Ok(ReadParts {
                kept,
                repo: Some(key),
            });
        }
        keep_line(alloc, line, &mut buffers, &mut kept)?;
    }
}

fn keep_line(
    alloc: Global,
    line: NumberedLine<'_>,
    buffers: &mut Buffers,
    kept: &mut GitImports,
) -> Result<(), Stop<LineFault>>
    ensures ok { OnOk result (KeepsLine (line_pair line.entry) kept.old kept.new) }
    ensures err { IfErr result (λ d. Fails d (read_line (line_pair line.entry))) }
{
    let advisory = read_line(alloc, line, buffers)?;
    kept.import(advisory)?;
    Ok(())
}

// The URL of a line `repo URL`. A URL is a text that is not empty.
fn url_of(line: &[u8]) -> Option<&str>
    ensures { option_map (λ u. u.now) result ≡ url_of line.now }
{
    if line.len() <= 5 {
        return None;
    }
    let (word, url) = line.split_at(5);
    if !is_repo(word) {
        return None;
    }
    text_in(url)
}

fn is_repo(word: &[u8]) -> bool
    ensures { result ≡ bytes_eq word.now (codes "repo ") }
{
    word == b"repo ".as_slice()
}

fn text_in(bytes: &[u8]) -> Option<&str>
    ensures { option_map (λ u. u.now) result ≡ text_in bytes.now }
{
    match std::str::from_utf8(bytes) {
        Ok(text) => Some(text),
        Err(_) => None,
    }
}
