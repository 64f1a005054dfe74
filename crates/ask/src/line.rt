ghost use Rattle.std.specs.Prelude.{◌≡◌, ◌++◌, IfOk, string_bytes, codes};
ghost use Rattle.std.specs.Fmt.{decimal};
ghost use Rattle.osv_prim.specs.Results.{Gives};
ghost use Rattle.line_input.specs.Reader.{line_pair};
ghost use Rattle.ask.specs.Line.{read_line, refused_line};

use line_input::NumberedLine;
use osv_prim::Stop;
use osv_record::{Buffers, Record, RecordFault};
use std::alloc::{AllocError, Global};

/// A line that is refused. Lines are numbered from 1, with the empty ones counted.
#[derive(Clone, Copy, Debug, PartialEq, Eq)]
pub struct LineFault {
    pub number: u64,
    pub fault: RecordFault,
}

/// The advisory of a line.
pub fn read_line(
    alloc: Global,
    line: NumberedLine<'_>,
    buffers: &mut Buffers,
) -> Result<Record, Stop<LineFault>>
    ensures { Gives (λ r. r) result (read_line (line_pair line.entry)) }
{
    match Record::read_in(alloc, line.text, buffers) {
        Ok(record) => Ok(record),
        Err(RecordFault::Memory) => Err(Stop::Memory),
        Err(fault) => Err(Stop::Refused(LineFault {
            number: line.number,
            fault,
        })),
    }
}

/// The line that tells of it.
pub fn refused_line(alloc: Global, refused: LineFault) -> Result<String, AllocError>
    ensures { IfOk result (λ t. string_bytes t ≡ refused_line refused) }
{
    let LineFault { number, fault } = refused;
    numbered_refusal(alloc, number, fault.code(), fault.name())
}

fn numbered_refusal(alloc: Global, number: u64, code: u8, name: &str) -> Result<String, AllocError>
    ensures { IfOk result (λ t. string_bytes t ≡ codes "refused line " ++ (decimal number ++ (codes " " ++ (decimal code ++ (codes " " ++ (name.now ++ codes "\n")))))) }
{
    format!(in alloc; "refused line {number} {code} {name}\n")
}
