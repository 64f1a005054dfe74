ghost use Rattle.std.specs.Prelude.{◌≡◌, ◌&&◌, not, option_map};
ghost use Rattle.std.specs.List.{list_any};
ghost use Rattle.std.specs.Ordering.{is_lt};
ghost use Rattle.osv_prim.specs.Ranges.{against, in_range, is_limit, is_within_limits};
ghost use Rattle.range_eval.specs.Latest.{IsLatest, is_after, is_introduced, later};

use crate::order::{acts, against, event_cmp, is_limit};
use osv_prim::{Bound, EventKind};

/// Whether a version is in the range of these events, in any order (OSV schema 1.6, "Evaluation"). It takes
/// no memory, goes over the events a few times, and compares the version with each bound at most twice.
pub fn is_in_range<T: Ord>(events: &[(EventKind, Bound<T>)], version: &T) -> bool
    ensures { result ≡ in_range T.cmp version.now events.now }
{
    is_within_limits(events, version) && is_introduced(latest(events, version))
}

fn is_within_limits<T: Ord>(events: &[(EventKind, Bound<T>)], version: &T) -> bool
    ensures { result ≡ is_within_limits T.cmp version.now events.now }
{
    !has_limit(events) || is_before_a_limit(events, version)
}

fn has_limit<T: Ord>(events: &[(EventKind, Bound<T>)]) -> bool
    ensures { result ≡ list_any (λ e. is_limit e.0) events.now }
{
    events.iter().any(|event| is_limit(event.0))
}

fn is_before_a_limit<T: Ord>(events: &[(EventKind, Bound<T>)], version: &T) -> bool
    ensures { result ≡ list_any (λ e. is_limit e.0 && is_lt (against T.cmp version.now e.1)) events.now }
{
    events.iter().any(|event| is_limit(event.0) && against(version, &event.1).is_lt())
}

// The last event, in order, that acts on the version.
fn latest<'a, T: Ord>(
    events: &'a [(EventKind, Bound<T>)],
    version: &T,
) -> Option<&'a (EventKind, Bound<T>)>
    ensures { IsLatest T.cmp version.now events.now (option_map (λ e. e.now) result) }
{
    let mut latest = None;
    for event in events {
        latest = later(latest, event, version);
    }
    latest
}

fn later<'a, T: Ord>(
    latest: Option<&'a (EventKind, Bound<T>)>,
    event: &'a (EventKind, Bound<T>),
    version: &T,
) -> Option<&'a (EventKind, Bound<T>)>
    ensures { option_map (λ e. e.now) result ≡ later T.cmp version.now event.now (option_map (λ e. e.now) latest.entry) }
{
    if acts(event, version) && is_after(event, latest) {
        Some(event)
    } else {
        latest
    }
}

fn is_after<T: Ord>(event: &(EventKind, Bound<T>), latest: Option<&(EventKind, Bound<T>)>) -> bool
    ensures { result ≡ is_after T.cmp event.now (option_map (λ e. e.now) latest.entry) }
{
    match latest {
        None => true,
        Some(latest) => event_cmp(event, latest).is_gt(),
    }
}

fn is_introduced<T: Ord>(latest: Option<&(EventKind, Bound<T>)>) -> bool
    ensures { result ≡ is_introduced (option_map (λ e. e.now) latest.entry) }
{
    match latest {
        None => false,
        Some(latest) => latest.0 == EventKind::Introduced,
    }
}
