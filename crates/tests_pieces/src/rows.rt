use osv_prim::{CommitRow, List, Memory, NotAnId, Oid};
use std::alloc::Global;

/// The id of forty times a letter.
pub fn oid(letter: &str) -> Result<Oid, NotAnId> {
    let mut text = [b'?'; 40];
    if let [byte] = letter.as_bytes() {
        text = [*byte; 40];
    }
    Oid::read(text.as_slice())
}

// `c=ab` is the row of c, whose parents are a and b.
fn row_of(alloc: Global, text: &str) -> Result<Option<CommitRow>, Memory> {
    let (letter, of) = text.split_once('=').unwrap_or((text, ""));
    let Ok(id) = oid(letter) else {
        return Ok(None);
    };
    let mut parents = List::new(alloc);
    for byte in of.as_bytes() {
        if let Ok(parent) = Oid::read([*byte; 40].as_slice()) {
            parents.push(parent)?;
        }
    }
    Ok(Some(CommitRow { oid: id, parents }))
}

/// Rows, one behind the other.
pub fn rows_of(alloc: Global, text: &str) -> Result<Vec<CommitRow>, Memory> {
    let mut rows = Vec::new(alloc);
    for part in text.split(' ') {
        if let Some(row) = row_of(alloc, part)? {
            rows.push(row)?;
        }
    }
    Ok(rows)
}
