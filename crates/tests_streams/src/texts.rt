use fast_export::StreamFault;
use osv_prim::{CommitRow, List, Oid};
use std::alloc::{AllocError, Global};

/// The text of a template, where `|` stands for LF, `%` and a letter for the letter forty times, and `*` for
/// a thousand and twenty-four `x`.
pub fn expand(alloc: Global, template: &str) -> Result<Vec<u8>, AllocError> {
    let mut text = Vec::new(alloc);
    let mut forty = false;
    for byte in template.as_bytes() {
        if forty {
            push_many(&mut text, *byte, 40)?;
            forty = false;
        } else if *byte == b'%' {
            forty = true;
        } else {
            push_sign(&mut text, *byte)?;
        }
    }
    Ok(text)
}

fn push_sign(text: &mut Vec<u8>, byte: u8) -> Result<(), AllocError> {
    match byte {
        b'|' => push_many(text, b'\n', 1),
        b'*' => push_many(text, b'x', 1024),
        _ => push_many(text, byte, 1),
    }
}

fn push_many(text: &mut Vec<u8>, byte: u8, count: usize) -> Result<(), AllocError> {
    for _ in 0..count {
        text.push(byte)?;
    }
    Ok(())
}

fn push_letter(shown: &mut String, oid: &Oid) -> Result<(), AllocError> {
    shown.push(char::from(oid.write()[0]))
}

fn push_row(shown: &mut String, row: &CommitRow) -> Result<(), AllocError> {
    shown.push(' ')?;
    push_letter(shown, &row.oid)?;
    for parent in row.parents.as_slice() {
        push_letter(shown, parent)?;
    }
    Ok(())
}

// Of each row the first digit of its id and those of its parents.
fn shown(alloc: Global, rows: &List<CommitRow>) -> Result<String, AllocError> {
    let mut text = String::from_str(alloc, "rows")?;
    for row in rows.as_slice() {
        push_row(&mut text, row)?;
    }
    Ok(text)
}

/// The rows, or the fault.
pub fn told(
    alloc: Global,
    answer: &Result<List<CommitRow>, StreamFault>,
) -> Result<String, AllocError> {
    match answer {
        Ok(rows) => shown(alloc, rows),
        Err(fault) => {
            let code = fault.code();
            let at = fault.at();
            let name = fault.name();
            format!(in alloc; "{code} {name} at {at}")
        }
    }
}
