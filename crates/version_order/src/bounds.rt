ghost use Rattle.std.specs.Prelude.{◌≡◌, IfOk, option_map};
ghost use Rattle.std.specs.Option.{is_some};
ghost use Rattle.version_order.specs.Bounds.{bound_of, bounds_of, contains};
ghost use Rattle.version_order.specs.Versions.{reading};

use crate::order::Order;
use crate::version::Version;
use osv_prim::{Bound, Event, EventKind, Memory, ReadVersion};
use range_eval::is_in_range;
use std::alloc::Global;

/// Whether the range of these events, in any order, contains a version: all their values can be read in the
/// range's order, and the version is in it (OSV schema 1.6, "Evaluation"). Each value is read once.
pub fn contains(
    alloc: Global,
    order: Order,
    events: &[Event],
    version: &Version,
) -> Result<bool, Memory>
    ensures { IfOk result (λ b. b ≡ contains order events.now version.now) }
{
    match read_bounds(alloc, order, events)? {
        Some(bounds) => Ok(is_in_range(bounds.as_slice(), version)),
        None => Ok(false),
    }
}

/// Whether the values of all events can be read in an order.
pub fn reads_all(alloc: Global, order: Order, events: &[Event]) -> Result<bool, Memory>
    ensures { IfOk result (λ b. b ≡ is_some (bounds_of order events.now)) }
{
    Ok(read_bounds(alloc, order, events)?.is_some())
}

/// The bounds that events name in an order, if all their values can be read. An `introduced` of `0` and a
/// `limit` of `*` can be read in each.
pub fn read_bounds(
    alloc: Global,
    order: Order,
    events: &[Event],
) -> Result<Option<Vec<(EventKind, Bound<Version>)>>, Memory>
    ensures { IfOk result (λ o. option_map (λ v. v.items) o ≡ bounds_of order events.now) }
{
    let mut bounds = Vec::with_capacity(alloc, events.len())?;
    for event in events {
        let Some(bound) = bound_of(alloc, order, event)? else {
            return Ok(None);
        };
        bounds.push((event.kind, bound))?;
    }
    Ok(Some(bounds))
}

fn bound_of(alloc: Global, order: Order, event: &Event) -> Result<Option<Bound<Version>>, Memory>
    ensures { IfOk result (λ o. o ≡ bound_of order event.now) }
{
    if event.is_lowest() {
        Ok(Some(Bound::Lowest))
    } else if event.is_endless() {
        Ok(Some(Bound::Endless))
    } else {
        bound_at(alloc, order, event.value.as_str())
    }
}

fn bound_at(alloc: Global, order: Order, value: &str) -> Result<Option<Bound<Version>>, Memory>
    ensures { IfOk result (λ o. o ≡ option_map Bound.At (reading order value.now)) }
{
    match Version::read(alloc, order, value) {
        Ok(version) => Ok(Some(Bound::At(version))),
        Err(ReadVersion::NotAVersion) => Ok(None),
        Err(ReadVersion::Memory) => Err(Memory),
    }
}
