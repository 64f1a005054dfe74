ghost use Rattle.std.specs.Prelude.{◌≡◌};
ghost use Rattle.osv_prim.specs.Ranges.{against, event_cmp, is_limit};
ghost use Rattle.range_eval.specs.Latest.{acts};

use osv_prim::{Bound, EventKind};
use std::cmp::Ordering;

/// Where a version stands to a bound.
pub fn against<T: Ord>(version: &T, bound: &Bound<T>) -> Ordering
    ensures { result ≡ against T.cmp version.now bound.now }
{
    match bound {
        Bound::Lowest => Ordering::Greater,
        Bound::At(value) => version.cmp(value),
        Bound::Endless => Ordering::Less,
    }
}

/// Compares two events by their bounds, and at one bound by their kinds.
pub fn event_cmp<T: Ord>(a: &(EventKind, Bound<T>), b: &(EventKind, Bound<T>)) -> Ordering
    ensures { result ≡ event_cmp T.cmp a.now b.now }
{
    a.1.cmp(&b.1).then(a.0.cmp(&b.0))
}

pub fn is_limit(kind: EventKind) -> bool
    ensures { result ≡ is_limit kind }
{
    match kind {
        EventKind::Introduced | EventKind::Fixed | EventKind::LastAffected => false,
        EventKind::Limit => true,
    }
}

/// Whether an event sets or clears the flag of a version.
pub fn acts<T: Ord>(event: &(EventKind, Bound<T>), version: &T) -> bool
    ensures { result ≡ acts T.cmp version.now event.now.0 event.now.1 }
{
    match event.0 {
        EventKind::Introduced | EventKind::Fixed => against(version, &event.1).is_ge(),
        EventKind::LastAffected => against(version, &event.1).is_gt(),
        EventKind::Limit => false,
    }
}
