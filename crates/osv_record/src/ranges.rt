ghost use Rattle.std.specs.Prelude.{◌≡◌, IfOk, option_map, is_some};
ghost use Rattle.osv_prim.specs.Results.{Gives, each};
ghost use Rattle.json_view.specs.Views.{node_value, element_values};
ghost use Rattle.osv_record.specs.Advisories.{is_git, has_its_repo};
ghost use Rattle.osv_record.specs.Reading.{event_said, event_of, event_from, events_of, has_introduced, is_introduced, kind_named, kind_of, url_of, repo_of, range_of};

use crate::fault::{Member, RecordFault};
use crate::members::{full_text, list_or_none, object_or, text_or};
use crate::range::Range;
use json_view::{Elements, Node};
use osv_prim::{Event, EventKind, List, RangeKind, RepoKey, Stop, Text};
use std::alloc::Global;

// What an event says, and the value that it says it of.
#[derive(Clone, Copy)]
struct Said<'t, 'a> {
    kind: EventKind,
    value: Node<'t, 'a>,
}

#[tactic(auto, unfolding(crate::specs::Reading::event_said))]
fn event_said<'t, 'a>(node: Node<'t, 'a>) -> Option<Said<'t, 'a>>
    ensures { option_map (λ s. (s.kind, node_value s.value)) result ≡ event_said (node_value node.entry) }
{
    let introduced = node.member("introduced");
    let fixed = node.member("fixed");
    let last_affected = node.member("last_affected");
    let limit = node.member("limit");
    let (kind, value) = match (introduced, fixed, last_affected, limit) {
        (Some(value), None, None, None) => (EventKind::Introduced, value),
        (None, Some(value), None, None) => (EventKind::Fixed, value),
        (None, None, Some(value), None) => (EventKind::LastAffected, value),
        (None, None, None, Some(value)) => (EventKind::Limit, value),
        _ => return None,
    };
    Some(Said { kind, value })
}

#[tactic(auto, unfolding(crate::specs::Reading::event_of))]
fn event_of(alloc: Global, node: Node) -> Result<Event, Stop<RecordFault>>
    ensures { Gives (λ e. e) result (event_of (node_value node.entry)) }
{
    let Some(said) = event_said(node) else {
        return Err(Stop::Refused(RecordFault::BadEvent));
    };
    let value = full_text(Some(said.value), RecordFault::BadEvent)?;
    Ok(Event {
        kind: said.kind,
        value: Text::copy_of(alloc, value)?,
    })
}

fn each_event(alloc: Global, mut elements: Elements) -> Result<List<Event>, Stop<RecordFault>>
    ensures { Gives (λ l. l) result (each event_of (element_values elements.entry)) }
{
    let mut events = List::with_capacity(alloc, elements.len())?;
    while let Some(node) = elements.next() {
        events.push(event_of(alloc, node)?)?;
    }
    Ok(events)
}

fn has_introduced(events: &[Event]) -> bool
    ensures { result ≡ has_introduced events.now }
{
    events
        .iter()
        .any(|event| matches!(event.kind, EventKind::Introduced))
}

#[tactic(auto, unfolding(crate::specs::Reading::events_of))]
fn events_of(alloc: Global, found: Option<Node>) -> Result<List<Event>, Stop<RecordFault>>
    ensures { Gives (λ l. l) result (events_of (option_map node_value found.entry)) }
{
    let elements = list_or_none(found, Member::Events)?;
    if elements.len() == 0 {
        return Err(Stop::Refused(RecordFault::NoEvents));
    }
    let events = each_event(alloc, elements)?;
    if !has_introduced(events.as_slice()) {
        return Err(Stop::Refused(RecordFault::NoIntroduced));
    }
    Ok(events)
}

fn kind_named(text: &str) -> Option<RangeKind>
    ensures { result ≡ kind_named text.now }
{
    match text {
        "SEMVER" => Some(RangeKind::SemVer),
        "ECOSYSTEM" => Some(RangeKind::Ecosystem),
        "GIT" => Some(RangeKind::Git),
        _ => None,
    }
}

#[tactic(auto, unfolding(crate::specs::Reading::kind_of))]
fn kind_of(found: Option<Node>) -> Result<RangeKind, Stop<RecordFault>>
    ensures { Gives (λ k. k) result (kind_of (option_map node_value found.entry)) }
{
    let Some(node) = found else {
        return Err(Stop::Refused(RecordFault::BadRangeType));
    };
    match kind_named(text_or(node, RecordFault::BadRangeType)?) {
        Some(kind) => Ok(kind),
        None => Err(Stop::Refused(RecordFault::BadRangeType)),
    }
}

#[tactic(auto, unfolding(crate::specs::Reading::url_of))]
fn url_of<'a>(found: Option<Node<'_, 'a>>) -> Result<&'a str, Stop<RecordFault>>
    ensures { Gives (λ s. s.now) result (url_of (option_map node_value found.entry)) }
{
    match found {
        Some(node) => text_or(node, RecordFault::WrongType(Member::Repo)),
        None => Ok(""),
    }
}

#[tactic(auto, unfolding(crate::specs::Reading::repo_of))]
fn repo_of(alloc: Global, kind: RangeKind, url: &str) -> Result<Option<RepoKey>, Stop<RecordFault>>
    ensures value { Gives (λ r. r) result (repo_of kind url.now) }
    ensures its { IfOk result (λ r. has_its_repo kind r) }
{
    if !matches!(kind, RangeKind::Git) {
        return Ok(None);
    }
    if url.is_empty() {
        return Err(Stop::Refused(RecordFault::GitWithoutRepo));
    }
    Ok(Some(RepoKey::normal(alloc, url)?))
}

#[tactic(auto, unfolding(crate::specs::Reading::range_of))]
fn range_of(alloc: Global, node: Node) -> Result<Range, Stop<RecordFault>>
    ensures { Gives (λ r. r) result (range_of (node_value node.entry)) }
{
    object_or(node, RecordFault::WrongType(Member::Range))?;
    let kind = kind_of(node.member("type"))?;
    let repo = repo_of(alloc, kind, url_of(node.member("repo"))?)?;
    let events = events_of(alloc, node.member("events"))?;
    Ok(Range::new(kind, repo, events)?)
}

pub fn ranges_of(alloc: Global, mut elements: Elements) -> Result<List<Range>, Stop<RecordFault>>
    ensures { Gives (λ l. l) result (each range_of (element_values elements.entry)) }
{
    let mut ranges = List::with_capacity(alloc, elements.len())?;
    while let Some(node) = elements.next() {
        ranges.push(range_of(alloc, node)?)?;
    }
    Ok(ranges)
}
