ghost use Rattle.std.specs.Prelude.{◌≡◌, ◌≤◌, ◌⊎◌, List, ℕ, IfOk, IfErr, IsOk, IsErrOf, option_map};
ghost use Rattle.std.specs.Io.KnownBytes.{IsAtEnd};
ghost use Rattle.edge_io.specs.Causes.{Rose};
ghost use Rattle.evaluate.specs.Kept.{commit_subject};
ghost use Rattle.settings.specs.declared.TheConstants.{MAX_INPUT_BYTES};
ghost use Rattle.line_input.specs.Lines.{numbered};
ghost use Rattle.line_input.specs.Reader.{KnowsEnd, StandsIn};
ghost use Rattle.osv_prim.specs.declared.subject.Subject.{Subject};
ghost use Rattle.ask.specs.Asked.{answer_to_parts, asked, parts};
ghost use Rattle.ask.specs.Line.{refused_line};
ghost use Rattle.ask.specs.Outputs.{IsAnswer, refusal, within};
ghost use Rattle.ask.specs.Parts.{Parts, divided};
ghost use Rattle.ask.specs.Stops.{Finds, Stops};

use crate::commits::{refused_commits, repos_of};
use crate::hits::{hits_of_lines, ids_output};
use crate::line::{LineFault, refused_line};
use crate::output::{Output, refusal, too_large};
use crate::parts::{ReadParts, read_parts};
use crate::stop::InputStop;
use edge_io::Source;
use line_input::{LineReader, ReadStop};
use osv_prim::{Id, Ledger, Oid, PackageKey, Steps, Subject};
use std::alloc::Global;

/// The ids of the advisories that touch what is asked for, ascending, a line each, or the line that
/// tells what is refused. The input has at most `limit` bytes. It is read to its end, or past the
/// limit, before anything is answered; no more of it is held than a line and a piece, and, where a
/// commit is asked for, the advisories with a GIT range and the rows of the commits.
pub fn ask<S: Source, L: Ledger>(
    alloc: Global,
    subject: &Subject,
    limit: u64,
    source: &mut S,
    steps: &mut Steps<L>,
) -> Result<Output, ReadStop>
    requires { limit ≤ MAX_INPUT_BYTES }
    ensures answer { IfOk result (IsAnswer (within limit (asked subject.now)) (S.left source.old) (S.left source.new)) }
    ensures failed { IsErrOf result ReadStop.Source → Rose (S.faults source.old) (S.faults source.new) }
    ensures later { S.faults source.old ≤ S.faults source.new }
{
    let mut reader = LineReader::new(alloc, limit);
    match hit_ids(alloc, subject, &mut reader, source, steps) {
        Ok(ids) => Ok(ids_output(alloc, ids.as_slice())?),
        Err(stop) => told(alloc, stop, &mut reader, source),
    }
}

fn hit_ids<S: Source, L: Ledger>(
    alloc: Global,
    subject: &Subject,
    reader: &mut LineReader,
    source: &mut S,
    steps: &mut Steps<L>,
) -> Result<Vec<Id>, InputStop>
    requires { reader.old.passed ≡ 0 }
    ensures ids { IfOk result (λ v. (input : List ℕ) → StandsIn input reader.old (S.left source.old) → Finds input (parts subject.now input) reader.old.limit subject.now v.items) }
    ensures stops { IfErr result (λ e. (input : List ℕ) → StandsIn input reader.old (S.left source.old) → Stops input (parts subject.now input) e reader.new (S.left source.new)) }
    ensures end { IsOk result → KnowsEnd reader.old (S.left source.old) → IsAtEnd (S.left source.new) }
    ensures limit { reader.new.limit ≡ reader.old.limit }
    ensures failed { IsErrOf result (InputStop.Read ReadStop.Source) → Rose (S.faults source.old) (S.faults source.new) }
    ensures later { S.faults source.old ≤ S.faults source.new }
{
    match subject {
        Subject::Package(_, _) => hits_of_lines(alloc, subject, reader, source, steps),
        Subject::Commit(commit) => hits_of_commit(alloc, commit, None, reader, source, steps),
        Subject::CommitIn(commit, key) => {
            hits_of_commit(alloc, commit, Some(key), reader, source, steps)
        }
    }
}

fn hits_of_commit<S: Source, L: Ledger>(
    alloc: Global,
    commit: &Oid,
    key: Option<&PackageKey>,
    reader: &mut LineReader,
    source: &mut S,
    steps: &mut Steps<L>,
) -> Result<Vec<Id>, InputStop>
    requires { reader.old.passed ≡ 0 }
    ensures ids { IfOk result (λ v. (input : List ℕ) → StandsIn input reader.old (S.left source.old)
        → Finds input (divided input (numbered 1 input)) reader.old.limit (commit_subject commit.now (option_map (λ k. k.now) key.entry)) v.items) }
    ensures stops { IfErr result (λ e. (input : List ℕ) → StandsIn input reader.old (S.left source.old) → Stops input (divided input (numbered 1 input)) e reader.new (S.left source.new)) }
    ensures end { IsOk result → KnowsEnd reader.old (S.left source.old) → IsAtEnd (S.left source.new) }
    ensures limit { reader.new.limit ≡ reader.old.limit }
    ensures failed { IsErrOf result (InputStop.Read ReadStop.Source) → Rose (S.faults source.old) (S.faults source.new) }
    ensures later { S.faults source.old ≤ S.faults source.new }
{
    let ReadParts { kept, repo } = read_parts(alloc, reader, source)?;
    let repos = repos_of(alloc, repo, reader, source, steps)?;
    Ok(kept.into_hit_ids(alloc, repos.as_slice(), commit, key, steps)?)
}

fn told<S: Source>(
    alloc: Global,
    stop: InputStop,
    reader: &mut LineReader,
    source: &mut S,
) -> Result<Output, ReadStop>
    ensures told { IfOk result (λ o. (input : List ℕ) → (parts : Parts) → (subject : Subject) → Stops input parts stop reader.old (S.left source.old)
        → o ≡ within reader.old.limit (λ _. answer_to_parts subject parts) input) }
    ensures status { IfOk result (λ o. o.status ≡ 5) }
    ensures failed { IsErrOf result ReadStop.Source → (stop ≡ InputStop.Read ReadStop.Source) ⊎ Rose (S.faults source.old) (S.faults source.new) }
    ensures later { S.faults source.old ≤ S.faults source.new }
{
    match stop {
        InputStop::Line(fault) => told_line(alloc, fault, reader, source),
        InputStop::Commits(fault) => Ok(refusal(refused_commits(alloc, fault)?)),
        InputStop::TooLarge => Ok(too_large(alloc, reader.limit())?),
        InputStop::Read(stop) => Err(stop),
    }
}

// That an input is too large is told before a refused line.
fn told_line<S: Source>(
    alloc: Global,
    fault: LineFault,
    reader: &mut LineReader,
    source: &mut S,
) -> Result<Output, ReadStop>
    ensures told { IfOk result (λ o. (input : List ℕ) → StandsIn input reader.old (S.left source.old) → o ≡ within reader.old.limit (λ _. refusal (refused_line fault)) input) }
    ensures status { IfOk result (λ o. o.status ≡ 5) }
    ensures failed { IsErrOf result ReadStop.Source → Rose (S.faults source.old) (S.faults source.new) }
    ensures later { S.faults source.old ≤ S.faults source.new }
{
    let limit = reader.limit();
    if reader.ends_within(source)? {
        Ok(refusal(refused_line(alloc, fault)?))
    } else {
        Ok(too_large(alloc, limit)?)
    }
}
