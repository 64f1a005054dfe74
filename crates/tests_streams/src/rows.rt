use crate::feeding::read_in;
use osv_prim::CommitRow;
use std::io;
use std::io::Read;

// As many commits as a stream may have.
const MOST: u32 = 16_777_216;

/// Reads standard input as one stream and prints its rows, an id and its parents a line, or its fault.
pub fn print_rows(rt: &HostRuntime) -> io::Result<()> {
    let mut text = Vec::new(rt.alloc());
    rt.reader().read_to_end(&mut text)?;
    match read_in(rt.alloc(), text.as_slice(), 4_096, MOST) {
        Ok(rows) => {
            for row in rows.as_slice() {
                print_row(rt, row)?;
            }
            Ok(())
        }
        Err(fault) => {
            let code = fault.code();
            let name = fault.name();
            let at = fault.at();
            println!(rt; "{code} {name} at {at}")
        }
    }
}

fn print_row(rt: &HostRuntime, row: &CommitRow) -> io::Result<()> {
    let mut line = String::new(rt.alloc());
    push_id(&mut line, &row.oid.write())?;
    for parent in row.parents.as_slice() {
        line.push(' ')?;
        push_id(&mut line, &parent.write())?;
    }
    println!(rt; "{line}")
}

fn push_id(line: &mut String, digits: &[u8]) -> io::Result<()> {
    for digit in digits {
        line.push(char::from(*digit))?;
    }
    Ok(())
}
