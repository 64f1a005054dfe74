use osv_prim::{CommitRow, List, Memory, NotAnId, Oid};
use std::alloc::Global;

/// The id whose 40 hex digits are a name with zeros before it.
pub fn oid(name: &str) -> Result<Oid, NotAnId> {
    let mut text = [b'0'; 40];
    let start = 40usize.saturating_sub(name.len());
    for (index, byte) in name.as_bytes().iter().enumerate() {
        let at = start.saturating_add(index);
        if at < 40 {
            text[at] = *byte;
        }
    }
    Oid::read(text.as_slice())
}

/// The name of an id: its hex digits without the zeros before them.
pub fn name_of(alloc: Global, oid: &Oid) -> Result<String, Memory> {
    let mut name = String::new(alloc);
    for byte in oid.write() {
        if byte != b'0' || !name.is_empty() {
            name.push(char::from(byte))?;
        }
    }
    Ok(name)
}

// `c=a,b` is the row of c, whose parents are a and b.
fn row_of(alloc: Global, text: &str) -> Result<Option<CommitRow>, Memory> {
    let (name, of) = text.split_once('=').unwrap_or((text, ""));
    let Ok(id) = oid(name) else {
        return Ok(None);
    };
    let mut parents = List::new(alloc);
    for part in of.split(',') {
        if !part.is_empty() {
            if let Ok(parent) = oid(part) {
                parents.push(parent)?;
            }
        }
    }
    Ok(Some(CommitRow { oid: id, parents }))
}

/// The rows of a text with spaces between them.
pub fn rows_of(alloc: Global, text: &str) -> Result<Vec<CommitRow>, Memory> {
    let mut rows = Vec::new(alloc);
    for part in text.split(' ') {
        if !part.is_empty() {
            if let Some(row) = row_of(alloc, part)? {
                rows.push(row)?;
            }
        }
    }
    Ok(rows)
}
