//! Reads lines `KIND|ECOSYSTEM|EVENTS|VERSION`, where events are `kind value` with commas between, and prints
//! whether the range contains the version, as the plain function and as the compiled range tell.
#![tactic(auto)]

use osv_prim::{Event, EventKind, Memory, RangeKind, ReadVersion, Text};
use range_eval::Compiled;
use std::alloc::Global;
use std::io;
use version_order::{Order, Version, contains, read_bounds, reads_all};

fn range_kind(word: &str) -> RangeKind {
    match word {
        "SEMVER" => RangeKind::SemVer,
        "ECOSYSTEM" => RangeKind::Ecosystem,
        _ => RangeKind::Git,
    }
}

fn event_kind(word: &str) -> EventKind {
    match word {
        "introduced" => EventKind::Introduced,
        "fixed" => EventKind::Fixed,
        "last_affected" => EventKind::LastAffected,
        _ => EventKind::Limit,
    }
}

fn event(alloc: Global, text: &str) -> Result<Event, Memory> {
    let (kind, value) = text.split_once(' ').unwrap_or((text, ""));
    Ok(Event {
        kind: event_kind(kind),
        value: Text::copy_of(alloc, value)?,
    })
}

fn events(alloc: Global, text: &str) -> Result<Vec<Event>, Memory> {
    let mut events = Vec::new(alloc);
    for part in text.split(',') {
        if !part.is_empty() {
            events.push(event(alloc, part)?)?;
        }
    }
    Ok(events)
}

fn in_compiled(
    alloc: Global,
    order: Order,
    events: &[Event],
    version: &Version,
) -> Result<bool, Memory> {
    match read_bounds(alloc, order, events)? {
        Some(bounds) => Ok(Compiled::build(alloc, bounds)?.contains(version)),
        None => Ok(false),
    }
}

fn of_version(
    alloc: Global,
    order: Order,
    events: &[Event],
    version: &Version,
) -> Result<&'static str, Memory> {
    let plain = contains(alloc, order, events, version)?;
    let compiled = in_compiled(alloc, order, events, version)?;
    match (plain, compiled) {
        (true, true) => Ok("in"),
        (false, false) => Ok("out"),
        _ => Ok("the two differ"),
    }
}

fn of_range(
    alloc: Global,
    order: Order,
    events: &[Event],
    version: &str,
) -> Result<&'static str, Memory> {
    match Version::read(alloc, order, version) {
        Err(ReadVersion::Memory) => Err(Memory),
        Err(ReadVersion::NotAVersion) => Ok("no version"),
        Ok(version) if reads_all(alloc, order, events)? => {
            of_version(alloc, order, events, &version)
        }
        Ok(_) => Ok("an unread event"),
    }
}

fn answer(alloc: Global, line: &str) -> Result<&'static str, Memory> {
    let (kind, rest) = line.split_once('|').unwrap_or((line, ""));
    let (ecosystem, rest) = rest.split_once('|').unwrap_or((rest, ""));
    let (list, version) = rest.split_once('|').unwrap_or((rest, ""));
    match Order::of(range_kind(kind), ecosystem) {
        None => Ok("no order"),
        Some(order) => of_range(alloc, order, events(alloc, list)?.as_slice(), version),
    }
}

fn main(rt: HostRuntime) -> io::Result<()> {
    for line in rt.lines(rt.alloc()) {
        let line = line?;
        let answer = answer(rt.alloc(), line.as_str()).unwrap_or("no memory");
        println!(rt; "{line}: {answer}")?;
    }
    Ok(())
}
