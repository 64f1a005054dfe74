ghost use Rattle.std.specs.Prelude.{◌≡◌, Ok, ◌≤◌, ◌++◌, IfOk, IsErrOf, OnOk, string_bytes, codes};
ghost use Rattle.std.specs.List.{flat_map};
ghost use Rattle.std.specs.Fmt.{decimal};
ghost use Rattle.osv_record.specs.Reading.{advisory};
ghost use Rattle.ask.specs.Checked.{checked, is_refused, notice_line, ok_line, place, refused_verdict, verdict, verdicts_output, AddsVerdict};
ghost use Rattle.ask.specs.Outputs.{IsAnswer, within};
ghost use Rattle.edge_io.specs.Causes.{Rose};
ghost use Rattle.line_input.specs.Reader.{line_pair};
ghost use Rattle.settings.specs.declared.TheConstants.{MAX_INPUT_BYTES};

use crate::output::{Output, too_large};
use edge_io::Source;
use line_input::{LineReader, Next, NumberedLine, ReadStop};
use osv_prim::{Bytes, Memory};
use osv_record::{Buffers, Record, RecordFault};
use record_check::{Notice, notices};
use std::alloc::{AllocError, Global};

// The verdicts on the lines so far, and whether one of them was refused.
#[derive(Drop)]
struct Verdicts {
    refused: bool,
    text: Vec<u8>,
}

/// A verdict on each line that is not empty: accepted, with the notices on it, or refused. The input
/// has at most `limit` bytes; the source is read to its end, or past the limit, before anything is
/// answered. Beside the verdicts no more than a line and a piece of the input is held.
pub fn check<S: Source>(alloc: Global, limit: u64, source: &mut S) -> Result<Output, ReadStop>
    requires { limit ≤ MAX_INPUT_BYTES }
    ensures answer { IfOk result (IsAnswer (within limit checked) (S.left source.old) (S.left source.new)) }
    ensures failed { IsErrOf result ReadStop.Source → Rose (S.faults source.old) (S.faults source.new) }
    ensures later { S.faults source.old ≤ S.faults source.new }
{
    let mut reader = LineReader::new(alloc, limit);
    let mut buffers = Buffers::new(alloc);
    let mut verdicts = Verdicts {
        refused: false,
        text: Vec::new(alloc),
    };
    'lines: loop {
        match reader.next(source)? {
            Next::Here => add_verdict(alloc, &mut verdicts, reader.line(), &mut buffers)?,
            Next::End => return Ok(output_of(verdicts)),
            Next::TooLarge => return Ok(too_large(alloc, limit)?),
        }
    }
}

fn output_of(verdicts: Verdicts) -> Output
    ensures { result ≡ verdicts_output verdicts }
{
    Output {
        status: if verdicts.refused { 5 } else { 0 },
        bytes: Bytes::from_vec(verdicts.text),
    }
}

// The record is let go before the next line is read.
fn add_verdict(
    alloc: Global,
    verdicts: &mut Verdicts,
    line: NumberedLine<'_>,
    buffers: &mut Buffers,
) -> Result<(), Memory>
    ensures { OnOk result (AddsVerdict (line_pair line.entry) verdicts.old verdicts.new) }
{
    match Record::read_in(alloc, line.text, buffers) {
        Ok(record) => add_accepted(alloc, &mut verdicts.text, line.number, &record),
        Err(RecordFault::Memory) => Err(Memory),
        Err(fault) => {
            verdicts.refused = true;
            let text = refused_verdict(alloc, line.number, fault)?;
            verdicts.text.extend_from_slice(text.as_bytes())?;
            Ok(())
        }
    }
}

fn add_accepted(
    alloc: Global,
    text: &mut Vec<u8>,
    number: u64,
    advisory: &Record,
) -> Result<(), Memory>
    ensures { OnOk result (text.new.items ≡ text.old.items ++ verdict number (Ok advisory.now)) }
{
    let accepted = ok_line(alloc, number, advisory.id.as_str())?;
    text.extend_from_slice(accepted.as_bytes())?;
    let noted = notices(alloc, advisory)?;
    add_notices(alloc, text, number, noted.as_slice())
}

fn add_notices(
    alloc: Global,
    text: &mut Vec<u8>,
    number: u64,
    noted: &[Notice],
) -> Result<(), Memory>
    ensures { OnOk result (text.new.items ≡ text.old.items ++ flat_map (notice_line number) noted.now) }
{
    for notice in noted {
        let line = notice_line(alloc, number, *notice)?;
        text.extend_from_slice(line.as_bytes())?;
    }
    Ok(())
}

fn ok_line(alloc: Global, number: u64, id: &str) -> Result<String, AllocError>
    ensures { IfOk result (λ t. string_bytes t ≡ ok_line number id.now) }
{
    format!(in alloc; "{number} ok {id}\n")
}

fn refused_verdict(alloc: Global, number: u64, fault: RecordFault) -> Result<String, AllocError>
    ensures { IfOk result (λ t. string_bytes t ≡ refused_verdict number fault) }
{
    refused(alloc, number, fault.code(), fault.name())
}

fn refused(alloc: Global, number: u64, code: u8, name: &str) -> Result<String, AllocError>
    ensures { IfOk result (λ t. string_bytes t ≡ decimal number ++ (codes " refused " ++ (decimal code ++ (codes " " ++ (name.now ++ codes "\n"))))) }
{
    format!(in alloc; "{number} refused {code} {name}\n")
}

fn notice_line(alloc: Global, number: u64, notice: Notice) -> Result<String, AllocError>
    ensures { IfOk result (λ t. string_bytes t ≡ notice_line number notice) }
{
    let place = place(alloc, notice.range)?;
    noted(
        alloc,
        number,
        notice.kind.code(),
        notice.kind.name(),
        notice.entry,
        place.as_str(),
    )
}

fn place(alloc: Global, range: Option<u32>) -> Result<String, AllocError>
    ensures { IfOk result (λ t. string_bytes t ≡ place range) }
{
    match range {
        Some(number) => format!(in alloc; "{number}"),
        None => String::from_str(alloc, "-"),
    }
}

fn noted(
    alloc: Global,
    number: u64,
    code: u8,
    name: &str,
    entry: u32,
    place: &str,
) -> Result<String, AllocError>
    ensures { IfOk result (λ t. string_bytes t ≡ decimal number ++ (codes " notice " ++ (decimal code ++ (codes " " ++ (name.now ++ (codes " entry " ++ (decimal entry ++ (codes " range " ++ (place.now ++ codes "\n"))))))))) }
{
    format!(in alloc; "{number} notice {code} {name} entry {entry} range {place}\n")
}
