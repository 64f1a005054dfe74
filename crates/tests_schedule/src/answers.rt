use book::Entry;
use osv_prim::Memory;
use schedule::{Answer, PlayFault};
use snapshot::Page;
use std::alloc::Global;

// The ids of a page, and ` |` where there are more.
fn put_page(page: &Page, text: &mut String) -> Result<(), Memory> {
    text.push_str("page")?;
    for advisory in &page.found {
        text.push(' ')?;
        text.push_str(advisory.id.as_str())?;
    }
    if page.more {
        text.push_str(" |")?;
    }
    Ok(())
}

fn fault_of(alloc: Global, fault: PlayFault) -> Result<String, Memory> {
    match fault {
        PlayFault::NoCaller => Ok(String::from_str(alloc, "refused NoCaller")?),
        PlayFault::HasJob => Ok(String::from_str(alloc, "refused HasJob")?),
        PlayFault::NoJob => Ok(String::from_str(alloc, "refused NoJob")?),
        PlayFault::Graph(fault) => Ok(format!(in alloc; "refused Graph {fault:?}")?),
        PlayFault::Full { used, limit } => {
            Ok(format!(in alloc; "refused Full, used {used} limit {limit}")?)
        }
        PlayFault::CallersSpent => Ok(String::from_str(alloc, "refused CallersSpent")?),
    }
}

fn word_of(alloc: Global, answer: &Answer) -> Result<String, Memory> {
    match answer {
        Answer::Caller(number) => Ok(format!(in alloc; "caller {number}")?),
        Answer::Entry(place) => Ok(format!(in alloc; "entry {place}")?),
        Answer::Got => Ok(String::from_str(alloc, "got")?),
        Answer::Reached { snapshot, upto } => Ok(format!(in alloc;
            "reached {snapshot} of {upto}"
        )?),
        Answer::Out(out) => Ok(format!(in alloc; "out {out}")?),
        Answer::Nothing(out) => Ok(format!(in alloc; "nothing {out}")?),
        Answer::Going => Ok(String::from_str(alloc, "going")?),
        Answer::Published(snapshot) => Ok(format!(in alloc; "published {snapshot}")?),
        Answer::Page(page) => {
            let mut text = String::new(alloc);
            put_page(page, &mut text)?;
            Ok(text)
        }
        Answer::Gone(oldest) => Ok(format!(in alloc; "gone {oldest}")?),
        Answer::Ahead(newest) => Ok(format!(in alloc; "ahead {newest}")?),
        Answer::Refused(fault) => fault_of(alloc, *fault),
    }
}

/// The answer behind the text, on a line of its own.
pub fn put(alloc: Global, answer: &Answer, text: &mut String) -> Result<(), Memory> {
    let word = word_of(alloc, answer)?;
    text.push_str(word.as_str())?;
    text.push('\n')?;
    Ok(())
}

/// An entry behind the text, on a line of its own.
pub fn put_entry(alloc: Global, entry: &Entry, text: &mut String) -> Result<(), Memory> {
    let line = match entry {
        Entry::Import { by, advisory } => {
            let id = advisory.id.as_str();
            format!(in alloc; "  import by {by}: {id}\n")?
        }
        Entry::Grow {
            by,
            graph,
            from,
            ..
        } => {
            let commits = graph.len();
            format!(in alloc; "  grow by {by}: from {from} to {commits} commits\n")?
        }
        Entry::Publish { by, upto } => format!(in alloc; "  publish by {by}: {upto} imports\n")?,
    };
    text.push_str(line.as_str())?;
    Ok(())
}
