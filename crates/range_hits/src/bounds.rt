ghost use Rattle.std.specs.Prelude.{◌≡◌, IfOk, option_map};
ghost use Rattle.range_hits.specs.Bounds.{bound_in, bounds_in, IsCompiled};

use crate::key::Key;
use osv_prim::{Bound, Event, EventKind, Memory};
use range_eval::Compiled;
use std::alloc::Global;

/// The compiled form of the range of these events, if all their values can be read.
pub(crate) fn compiled<K: Key>(
    alloc: Global,
    events: &[Event],
) -> Result<Option<Compiled<K>>, Memory>
    ensures { IfOk result (λ o. IsCompiled K.reading K.cmp events.now o) }
{
    match read_bounds(alloc, events)? {
        Some(bounds) => Ok(Some(Compiled::build(alloc, bounds)?)),
        None => Ok(None),
    }
}

// The bounds that events name, if all their values can be read.
fn read_bounds<K: Key>(
    alloc: Global,
    events: &[Event],
) -> Result<Option<Vec<(EventKind, Bound<K>)>>, Memory>
    ensures { IfOk result (λ o. option_map (λ v. v.items) o ≡ bounds_in K.reading events.now) }
{
    let mut bounds = Vec::with_capacity(alloc, events.len())?;
    for event in events {
        let Some(bound) = bound_in(alloc, event)? else {
            return Ok(None);
        };
        bounds.push((event.kind, bound))?;
    }
    Ok(Some(bounds))
}

fn bound_in<K: Key>(alloc: Global, event: &Event) -> Result<Option<Bound<K>>, Memory>
    ensures { IfOk result (λ o. o ≡ bound_in K.reading event.now) }
{
    if event.is_lowest() {
        Ok(Some(Bound::Lowest))
    } else if event.is_endless() {
        Ok(Some(Bound::Endless))
    } else {
        bound_at(alloc, event.value.as_str())
    }
}

fn bound_at<K: Key>(alloc: Global, value: &str) -> Result<Option<Bound<K>>, Memory>
    ensures { IfOk result (λ o. o ≡ option_map Bound.At (K.reading value.now)) }
{
    match K::read(alloc, value)? {
        Some(key) => Ok(Some(Bound::At(key))),
        None => Ok(None),
    }
}
