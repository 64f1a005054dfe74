use book_desk::{Desk, Kept};
use osv_prim::Memory;
use std::alloc::Global;

fn put_kept(alloc: Global, kept: &Kept, text: &mut String) -> Result<(), Memory> {
    let more = match kept {
        Kept::Here(snapshot) => {
            let upto = snapshot.upto();
            let repos = snapshot.tables().repos.len();
            format!(in alloc; ", {upto} imports of {repos} repositories")?
        }
        Kept::Gone { oldest } => format!(in alloc; ", gone before {oldest}")?,
        Kept::Ahead { newest } => format!(in alloc; ", ahead of {newest}")?,
    };
    text.push_str(more.as_str())?;
    Ok(())
}

/// `NUMBER NUMBER ..`: the newest snapshot's number, and what each number finds.
pub fn looked<D: Desk>(alloc: Global, desk: &mut D, text: &str) -> Result<String, Memory> {
    let mut numbers = Vec::new(alloc);
    for part in text.split(' ') {
        numbers.push(part.parse::<u64>().unwrap_or(0))?;
    }
    let mut found = Vec::with_capacity(alloc, numbers.len())?;
    let newest = desk.look(numbers.as_slice(), &mut found)?;
    let number = newest.number;
    let mut text = format!(in alloc; "newest {number}")?;
    for kept in &found {
        put_kept(alloc, kept, &mut text)?;
    }
    Ok(text)
}
