use osv_prim::{Event, EventKind, List, Memory, Text};
use std::alloc::Global;

fn kind_of(word: &str) -> EventKind {
    match word {
        "introduced" => EventKind::Introduced,
        "fixed" => EventKind::Fixed,
        "last_affected" => EventKind::LastAffected,
        _ => EventKind::Limit,
    }
}

// The 40 digits of a commit's name. `0` stands for all introduced roots, `*` for no limit, and a value that
// begins with `?` stays as it is.
fn value_of(alloc: Global, name: &str) -> Result<Text, Memory> {
    if name == "0" || name == "*" || name.starts_with('?') {
        return Text::copy_of(alloc, name);
    }
    let digits = format!(in alloc; "{name:0>40}")?;
    Text::copy_of(alloc, digits.as_str())
}

/// An event of a kind that names a commit.
pub fn event(alloc: Global, kind: EventKind, name: &str) -> Result<Event, Memory> {
    Ok(Event {
        kind,
        value: value_of(alloc, name)?,
    })
}

/// The events of a text as `introduced=a fixed=b`.
pub fn events_of(alloc: Global, text: &str) -> Result<List<Event>, Memory> {
    let mut events = List::new(alloc);
    for part in text.split(' ') {
        if !part.is_empty() {
            let (kind, name) = part.split_once('=').unwrap_or((part, ""));
            events.push(event(alloc, kind_of(kind), name)?)?;
        }
    }
    Ok(events)
}
