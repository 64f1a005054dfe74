ghost use Rattle.std.specs.Prelude.{◌≡◌, ◌≤◌, List, ℕ, length, IfOk, IfErr, IsOk, IsErrOf, OnOk};
ghost use Rattle.std.specs.Io.KnownBytes.{IsAtEnd};
ghost use Rattle.std.specs.List.{flat_map};
ghost use Rattle.edge_io.specs.Causes.{Rose};
ghost use Rattle.osv_prim.specs.Results.{Fails, each};
ghost use Rattle.line_input.specs.Lines.{numbered};
ghost use Rattle.line_input.specs.Reader.{KnowsEnd, StandsIn, line_pair};
ghost use Rattle.ask.specs.Asked.{FindsHits, TakesLine, ids_output, line_of};
ghost use Rattle.ask.specs.Line.{read_line};
ghost use Rattle.ask.specs.Parts.{advisories_alone};
ghost use Rattle.ask.specs.Stops.{Finds, Stops};

use crate::line::{LineFault, read_line};
use crate::output::Output;
use crate::stop::InputStop;
use edge_io::Source;
use evaluate::HitIds;
use line_input::{LineReader, Next, NumberedLine, ReadStop};
use osv_prim::{Bytes, Id, Ledger, Memory, Steps, Stop, Subject};
use osv_record::Buffers;
use std::alloc::{AllocError, Global};

/// The ids of the hits among the advisories of all lines, where no repository is known. The reader stands
/// at the front of its input.
pub fn hits_of_lines<S: Source, L: Ledger>(
    alloc: Global,
    subject: &Subject,
    reader: &mut LineReader,
    source: &mut S,
    steps: &mut Steps<L>,
) -> Result<Vec<Id>, InputStop>
    requires { reader.old.passed ≡ 0 }
    ensures ids { IfOk result (λ v. (input : List ℕ) → StandsIn input reader.old (S.left source.old) → Finds input (advisories_alone (numbered 1 input)) reader.old.limit subject.now v.items) }
    ensures stops { IfErr result (λ e. (input : List ℕ) → StandsIn input reader.old (S.left source.old) → Stops input (advisories_alone (numbered 1 input)) e reader.new (S.left source.new)) }
    ensures end { IsOk result → KnowsEnd reader.old (S.left source.old) → IsAtEnd (S.left source.new) }
    ensures limit { reader.new.limit ≡ reader.old.limit }
    ensures failed { IsErrOf result (InputStop.Read ReadStop.Source) → Rose (S.faults source.old) (S.faults source.new) }
    ensures later { S.faults source.old ≤ S.faults source.new }
{
    let found = import_lines(alloc, subject, reader, source, steps)?;
    Ok(found.into_vec(alloc)?)
}

// An advisory is let go once it was looked at, so that a run holds no more than one.
fn import_lines<S: Source, L: Ledger>(
    alloc: Global,
    subject: &Subject,
    reader: &mut LineReader,
    source: &mut S,
    steps: &mut Steps<L>,
) -> Result<HitIds, InputStop>
    requires { reader.old.passed ≡ 0 }
    ensures found { IfOk result (λ found. (input : List ℕ) → StandsIn input reader.old (S.left source.old)
        → FindsHits subject.now (each read_line (numbered 1 input)) found × (length input ≤ reader.old.limit)) }
    ensures stops { IfErr result (λ e. (input : List ℕ) → StandsIn input reader.old (S.left source.old) → Stops input (advisories_alone (numbered 1 input)) e reader.new (S.left source.new)) }
    ensures end { IsOk result → KnowsEnd reader.old (S.left source.old) → IsAtEnd (S.left source.new) }
    ensures limit { reader.new.limit ≡ reader.old.limit }
    ensures failed { IsErrOf result (InputStop.Read ReadStop.Source) → Rose (S.faults source.old) (S.faults source.new) }
    ensures later { S.faults source.old ≤ S.faults source.new }
{
    let mut buffers = Buffers::new(alloc);
    let mut found = HitIds::new(alloc);
    'lines: loop {
        match reader.next(source)? {
            Next::Here => {}
            Next::End => return Ok(found),
            Next::TooLarge => return Err(InputStop::TooLarge),
        }
        take_line(
            alloc,
            reader.line(),
            &mut buffers,
            subject,
            &mut found,
            steps,
        )?;
    }
}

fn take_line<L: Ledger>(
    alloc: Global,
    line: NumberedLine<'_>,
    buffers: &mut Buffers,
    subject: &Subject,
    found: &mut HitIds,
    steps: &mut Steps<L>,
) -> Result<(), Stop<LineFault>>
    ensures ok { OnOk result (TakesLine subject.now (line_pair line.entry) found.old found.new) }
    ensures err { IfErr result (λ d. Fails d (read_line (line_pair line.entry))) }
{
    let advisory = read_line(alloc, line, buffers)?;
    found.import(alloc, advisory, &[], subject, steps)?;
    Ok(())
}

/// The ids, a line each.
pub fn ids_output(alloc: Global, ids: &[Id]) -> Result<Output, Memory>
    ensures { IfOk result (λ o. o ≡ ids_output ids.now) }
{
    Ok(Output {
        status: 0,
        bytes: Bytes::from_vec(ids_text(alloc, ids)?),
    })
}

fn ids_text(alloc: Global, ids: &[Id]) -> Result<Vec<u8>, AllocError>
    ensures { IfOk result (λ v. v.items ≡ flat_map line_of ids.now) }
{
    let mut text = Vec::new(alloc);
    for id in ids {
        text.extend_from_slice(id.as_str().as_bytes())?;
        text.push(b'\n')?;
    }
    Ok(text)
}
