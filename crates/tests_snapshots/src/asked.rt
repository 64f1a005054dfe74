use osv_prim::{Id, Ledger, Memory, Oid, PackageKey, Steps, Subject, Text};
use snapshot::{Page, Snapshot};
use std::alloc::Global;

/// When the advisory of an id was modified, and whether it is withdrawn.
pub fn found(alloc: Global, snapshot: &Snapshot, id: &str) -> Result<String, Memory> {
    match snapshot.find(id.as_bytes()) {
        None => Ok(String::from_str(alloc, "none")?),
        Some(advisory) => {
            let modified = advisory.modified_text.as_str();
            let withdrawn = advisory.withdrawn;
            Ok(format!(in alloc; "{modified} {withdrawn}")?)
        }
    }
}

// The ids of a page after a space each, and ` |` where there are more.
fn put_page(page: &Page, text: &mut String) -> Result<(), Memory> {
    for advisory in &page.found {
        text.push(' ')?;
        text.push_str(advisory.id.as_str())?;
    }
    if page.more {
        text.push_str(" |")?;
    }
    Ok(())
}

fn last_of(alloc: Global, page: &Page) -> Result<Option<Id>, Memory> {
    match page.found.last() {
        Some(advisory) if page.more => Ok(Some(advisory.id.copy(alloc)?)),
        _ => Ok(None),
    }
}

fn walked<L: Ledger>(
    alloc: Global,
    snapshot: &Snapshot,
    subject: &Subject,
    size: u32,
    steps: &mut Steps<L>,
) -> Result<String, Memory> {
    let mut text = String::from_str(alloc, "pages")?;
    let mut after = None;
    for _ in 0..100 {
        let page = snapshot.answer(alloc, subject, after.as_ref(), size, steps)?;
        put_page(&page, &mut text)?;
        after = last_of(alloc, &page)?;
        if after.is_none() {
            break;
        }
    }
    Ok(text)
}

/// `SIZE ECOSYSTEM NAME [VERSION]`: the pages of the hits.
pub fn pages<L: Ledger>(
    alloc: Global,
    snapshot: &Snapshot,
    text: &str,
    steps: &mut Steps<L>,
) -> Result<String, Memory> {
    let (size, rest) = text.split_once(' ').unwrap_or((text, ""));
    let (ecosystem, rest) = rest.split_once(' ').unwrap_or((rest, ""));
    let (name, version) = match rest.split_once(' ') {
        Some((name, version)) => (name, Some(Text::copy_of(alloc, version)?)),
        None => (rest, None),
    };
    let subject = Subject::Package(PackageKey::normal(alloc, ecosystem, name)?, version);
    walked(
        alloc,
        snapshot,
        &subject,
        size.parse::<u32>().unwrap_or(0),
        steps,
    )
}

/// The hits of a commit, of which no snapshot knows any yet.
pub fn of_commit<L: Ledger>(
    alloc: Global,
    snapshot: &Snapshot,
    steps: &mut Steps<L>,
) -> Result<String, Memory> {
    let Ok(commit) = Oid::read(b"0123456789abcdef0123456789abcdef01234567") else {
        return Ok(String::from_str(alloc, "not read")?);
    };
    walked(alloc, snapshot, &Subject::Commit(commit), 10, steps)
}
