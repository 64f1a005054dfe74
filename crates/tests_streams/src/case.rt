use crate::feeding::{read_at, read_in, stays};
use crate::texts::{expand, told};
use std::alloc::{AllocError, Global};

/// What a stream says, fed in pieces of these sizes and in every division into two, or that these differ.
fn answer_to(alloc: Global, text: &[u8], most: u32) -> Result<String, AllocError> {
    let whole = told(alloc, &read_in(alloc, text, 100_000, most))?;
    for size in [1, 2, 7, 64, 65_536] {
        let pieces = told(alloc, &read_in(alloc, text, size, most))?;
        if pieces.as_str() != whole.as_str() {
            return format!(in alloc; "in pieces of {size} {pieces} and not {whole}");
        }
    }
    if !stays(alloc, text, most) {
        return format!(in alloc; "{whole} does not stay");
    }
    divided(alloc, text, most, whole)
}

// Divisions of longer texts take long.
fn divided(alloc: Global, text: &[u8], most: u32, whole: String) -> Result<String, AllocError> {
    if text.len() > 2_000 {
        return Ok(whole);
    }
    for offset in 0..text.len() {
        let two = told(alloc, &read_at(alloc, text, offset, most))?;
        if two.as_str() != whole.as_str() {
            return format!(in alloc; "divided at {offset} {two} and not {whole}");
        }
    }
    Ok(whole)
}

/// The answer to a case: how many commits may come, a space, and the stream. A line that begins with `#` is
/// its own answer.
pub fn answer_of(alloc: Global, line: &str) -> Result<String, AllocError> {
    if line.is_empty() || line.starts_with('#') {
        return String::from_str(alloc, line);
    }
    let Some((most, template)) = line.split_once(' ') else {
        return String::from_str(alloc, "no case");
    };
    match most.parse() {
        Ok(most) => answer_to(alloc, expand(alloc, template)?.as_slice(), most),
        Err(_) => String::from_str(alloc, "no number"),
    }
}
