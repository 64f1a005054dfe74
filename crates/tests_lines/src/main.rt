//! Reads inputs in memory line after line, however they are cut, and prints what came.
#![tactic(auto)]

ghost use Rattle.std.specs.Prelude.{◌≤◌, ◌<◌, ◌^◌};

use edge_io::MemSource;
use line_input::{LineReader, Next, NumberedLine, ReadStop};
use std::alloc::{AllocError, Global};
use std::io;

// The bytes of a text, in which `|` stands for a line end and `#` for 100,000 bytes.
fn input_of(alloc: Global, text: &str) -> Result<Vec<u8>, AllocError> {
    let mut bytes = Vec::new(alloc);
    for byte in text.as_bytes() {
        match *byte {
            b'|' => bytes.push(b'\n')?,
            b'#' => {
                let many = vec![in alloc; b'#'; 100_000]?;
                bytes.extend_from_slice(many.as_slice())?;
            }
            other => bytes.push(other)?,
        }
    }
    Ok(bytes)
}

// A short line as it is, of a long one its length.
fn shown(alloc: Global, line: NumberedLine<'_>) -> Result<String, AllocError> {
    let number = line.number;
    if line.text.len() > 40 {
        let len = line.text.len();
        return format!(in alloc; "{number}:{len} bytes ");
    }
    let text = std::str::from_utf8(line.text).unwrap_or("?");
    format!(in alloc; "{number}={text} ")
}

// `.` for the end, `+` for more bytes than the limit, `!` for a read that failed.
fn lines_of(
    alloc: Global,
    reader: &mut LineReader,
    source: &mut MemSource,
) -> Result<String, AllocError> {
    let mut text = String::new(alloc);
    for _ in 0..u64::MAX {
        match reader.next(source) {
            Ok(Next::Here) => text.push_str(shown(alloc, reader.line())?.as_str())?,
            Ok(Next::End) => {
                text.push('.')?;
                break;
            }
            Ok(Next::TooLarge) => {
                text.push('+')?;
                break;
            }
            Err(ReadStop::Source) => text.push_str("! ")?,
            Err(ReadStop::Memory) => return Err(AllocError),
        }
    }
    Ok(text)
}

// The same of all that is still to come, by pieces: how many bytes they are.
fn bytes_of(
    alloc: Global,
    reader: &mut LineReader,
    source: &mut MemSource,
) -> Result<String, AllocError> {
    let mut text = String::new(alloc);
    let mut count = 0u64;
    for _ in 0..u64::MAX {
        match reader.piece(source) {
            Ok(Next::Here) => count = count.saturating_add(reader.line().text.len() as u64),
            Ok(Next::End) => {
                text.push('.')?;
                break;
            }
            Ok(Next::TooLarge) => {
                text.push('+')?;
                break;
            }
            Err(ReadStop::Source) => text.push_str("! ")?,
            Err(ReadStop::Memory) => return Err(AllocError),
        }
    }
    format!(in alloc; "{count} {text}")
}

fn first_and_rest(
    alloc: Global,
    reader: &mut LineReader,
    source: &mut MemSource,
) -> Result<String, AllocError> {
    let first = match reader.next(source) {
        Ok(Next::Here) => shown(alloc, reader.line())?,
        Ok(_) => String::from_str(alloc, "none ")?,
        Err(ReadStop::Source) => String::from_str(alloc, "! ")?,
        Err(ReadStop::Memory) => return Err(AllocError),
    };
    let rest = bytes_of(alloc, reader, source)?;
    format!(in alloc; "{first}and {rest}")
}

// `CALL PIECE LIMIT FAILS TEXT`: a source gives PIECE bytes a read, and the read with number FAILS fails.
fn answer(alloc: Global, line: &str) -> Result<String, AllocError> {
    let mut words = line.splitn(5, ' ');
    let call = words.next().unwrap_or("");
    let piece = words.next().unwrap_or("").parse::<u64>().unwrap_or(1);
    let limit = words.next().unwrap_or("").parse::<u64>().unwrap_or(0);
    let fails = words.next().unwrap_or("").parse::<u64>();
    let text = words.next().unwrap_or("");
    let mut failing = Vec::new(alloc);
    if let Ok(number) = fails {
        failing.push(number)?;
    }
    let mut source = MemSource::new(input_of(alloc, text)?, failing, piece.max(1));
    let mut reader = LineReader::new(alloc, limit.min(1_000_000_000));
    match call {
        "lines" => lines_of(alloc, &mut reader, &mut source),
        "rest" => first_and_rest(alloc, &mut reader, &mut source),
        _ => String::from_str(alloc, line),
    }
}

fn main(rt: HostRuntime) -> io::Result<()> {
    for line in rt.lines(rt.alloc()) {
        let line = line?;
        let answer = answer(rt.alloc(), line.as_str())?;
        println!(rt; "{answer}")?;
    }
    Ok(())
}
