ghost use Rattle.std.specs.Prelude.{◌≡◌, ◌<◌, ◌^◌, ◌++◌, ◌&&◌, not, IfOk, OnOk, length, option_map};
ghost use Rattle.std.specs.List.{list_any, list_all};
ghost use Rattle.osv_prim.specs.Graphs.{is_kind};
ghost use Rattle.record_check.specs.Notices.{notices, noted, has_kind, order_in, has_no_order, has_unread, says_two_ends, lists_nothing, range_notices, ranges_notices, entry_notices};

use crate::notice::{Notice, NoticeKind};
use git_range::all_read;
use osv_prim::{Event, EventKind, Memory, PackageKey, RangeKind};
use osv_record::{Affected, Range, Record};
use std::alloc::Global;
use version_order::{Order, reads_all};

/// What is noted of an advisory: by entry, then what is of the whole entry before what is of a range,
/// then by range, then by the notice's number. The value of each event is read once.
pub fn notices(alloc: Global, advisory: &Record) -> Result<Vec<Notice>, Memory>
    ensures { IfOk result (λ v. v.items ≡ notices advisory.now) }
{
    let mut found = Vec::new(alloc);
    let mut number = 0u32;
    let mut rest = advisory.affected.as_slice();
    while let [entry, after @ ..] = rest {
        note_entry(alloc, &mut found, entry, number)?;
        number += 1;
        rest = after;
    }
    Ok(found)
}

fn note(
    found: &mut Vec<Notice>,
    holds: bool,
    kind: NoticeKind,
    entry: u32,
    range: Option<u32>,
) -> Result<(), Memory>
    ensures { OnOk result (found.new.items ≡ found.old.items ++ noted holds kind entry range) }
{
    if holds {
        found.push(Notice { kind, entry, range })?;
    }
    Ok(())
}

#[tactic(auto, unfolding(crate::specs::Notices::entry_notices))]
fn note_entry(
    alloc: Global,
    found: &mut Vec<Notice>,
    entry: &Affected,
    number: u32,
) -> Result<(), Memory>
    ensures { OnOk result (found.new.items ≡ found.old.items ++ entry_notices number entry.now) }
{
    note(
        found,
        entry.package.is_none(),
        NoticeKind::NoPackage,
        number,
        None,
    )?;
    note(
        found,
        lists_nothing(entry),
        NoticeKind::NothingListed,
        number,
        None,
    )?;
    note_ranges(alloc, found, entry, number)
}

fn lists_nothing(entry: &Affected) -> bool
    ensures { result ≡ lists_nothing entry.now }
{
    entry.ranges.is_empty() && entry.versions.is_empty()
}

fn note_ranges(
    alloc: Global,
    found: &mut Vec<Notice>,
    entry: &Affected,
    number: u32,
) -> Result<(), Memory>
    ensures { OnOk result (found.new.items ≡ found.old.items ++ ranges_notices number entry.now.«package» 0 entry.now.ranges) }
{
    let mut at = 0u32;
    let mut rest = entry.ranges.as_slice();
    while let [range, after @ ..] = rest {
        note_range(alloc, found, range, &entry.package, number, at)?;
        at += 1;
        rest = after;
    }
    Ok(())
}

#[tactic(auto, unfolding(crate::specs::Notices::range_notices))]
fn note_range(
    alloc: Global,
    found: &mut Vec<Notice>,
    range: &Range,
    key: &Option<PackageKey>,
    entry: u32,
    at: u32,
) -> Result<(), Memory>
    ensures { OnOk result (found.new.items ≡ found.old.items ++ range_notices entry key.now at range.now) }
{
    let order = order_in(key, range);
    let two_ends = says_two_ends(range.events.as_slice());
    note(found, two_ends, NoticeKind::FixedAndLast, entry, Some(at))?;
    let unordered = has_no_order(order, range);
    note(found, unordered, NoticeKind::NoOrder, entry, Some(at))?;
    let unread = has_unread(alloc, order, range)?;
    note(found, unread, NoticeKind::UnreadEvent, entry, Some(at))
}

fn says_two_ends(events: &[Event]) -> bool
    ensures { result ≡ says_two_ends events.now }
{
    has_kind(events, EventKind::Fixed) && has_kind(events, EventKind::LastAffected)
}

fn has_kind(events: &[Event], kind: EventKind) -> bool
    ensures { result ≡ has_kind kind events.now }
{
    events.iter().any(|event| is_kind(kind, event.kind))
}

fn is_kind(kind: EventKind, other: EventKind) -> bool
    ensures { result ≡ is_kind kind other }
{
    kind == other
}

fn order_in(key: &Option<PackageKey>, range: &Range) -> Option<Order>
    ensures { result ≡ order_in key.now range.now }
{
    match key {
        Some(package) => Order::of(range.kind, package.ecosystem.as_str()),
        None => Order::of(range.kind, ""),
    }
}

fn has_no_order(order: Option<Order>, range: &Range) -> bool
    ensures { result ≡ has_no_order order range.now }
{
    matches!(range.kind, RangeKind::Ecosystem) && order.is_none()
}

fn has_unread(alloc: Global, order: Option<Order>, range: &Range) -> Result<bool, Memory>
    ensures { IfOk result (λ b. b ≡ has_unread order range.now) }
{
    if let Some(order) = order {
        return Ok(!reads_all(alloc, order, range.events.as_slice())?);
    }
    Ok(matches!(range.kind, RangeKind::Git) && !all_read(range.events.as_slice()))
}
