ghost use Rattle.std.specs.Prelude.{◌≡◌, ◌+◌, ◌<◌, ◌≤◌, ◌||◌, ℕ, length, slice_index_or, false, IfOk, IfSome};
ghost use Rattle.std.specs.List.{list_all};
ghost use Rattle.osv_prim.specs.Graphs.{id_at, is_kind, is_named, is_read, names_all, has_limit};
ghost use Rattle.osv_prim.specs.Oids.{oid_of};
ghost use Rattle.osv_prim.specs.declared.event.EventKind.TheVariants.{Fixed};
ghost use Rattle.git_range.specs.Rows.{AreRows, IsNamedRow, is_closed};

use commit_graph::Graph;
use osv_prim::{Event, EventKind, Memory, Oid};
use std::alloc::Global;

/// Whether the value of each event of a GIT range can be read: 40 hex digits of either case, `0` of an
/// introduced event, or `*` of a limit. A range in which one can't be read affects no commit.
pub fn all_read(events: &[Event]) -> bool
    ensures { result ≡ list_all is_read events.now }
{
    events.iter().all(|event| is_read(event))
}

fn is_read(event: &Event) -> bool
    ensures { result ≡ is_read event.now }
{
    event.means_all() || oid_of(event).is_some()
}

fn oid_of(event: &Event) -> Option<Oid>
    ensures { result ≡ oid_of event.now.value }
{
    Oid::read(event.value.as_str().as_bytes()).ok()
}

fn is_kind(kind: EventKind, other: EventKind) -> bool
    ensures { result ≡ is_kind kind other }
{
    match (kind, other) {
        (EventKind::Introduced, EventKind::Introduced)
        | (EventKind::Fixed, EventKind::Fixed)
        | (EventKind::LastAffected, EventKind::LastAffected)
        | (EventKind::Limit, EventKind::Limit) => true,
        _ => false,
    }
}

/// Whether some event of a GIT range is a limit. Where none is, or one is `*` (`names_all`), limits keep
/// no commit out (OSV schema 1.6, "affected[].ranges[].events").
pub fn has_limit(events: &[Event]) -> bool
    ensures { result ≡ has_limit events.now }
{
    events
        .iter()
        .any(|event| is_kind(EventKind::Limit, event.kind))
}

/// Whether some event of the kind means every commit: of introduced events one with the value `0`, from
/// which the range begins at each commit without parents, and of limits one with `*`, which keeps no
/// commit out. No fixed and no last affected event does (OSV schema 1.6, "affected[].ranges[].events").
pub fn names_all(kind: EventKind, events: &[Event]) -> bool
    ensures { result ≡ names_all kind events.now }
{
    events
        .iter()
        .any(|event| is_kind(kind, event.kind) && event.means_all())
}

/// For each of the first rows, whether an event of the kind names its commit.
pub(crate) fn named_rows(
    alloc: Global,
    graph: &Graph,
    kind: EventKind,
    events: &[Event],
    count: usize,
) -> Result<Vec<bool>, Memory>
    requires { count ≤ length graph.now }
    ensures { IfOk result (λ v. AreRows count v.items (λ n. is_named kind events.now (id_at graph.now n))) }
{
    let mut noted = vec![in alloc; false; count]?;
    note_named(graph, kind, events, noted.as_mut_slice());
    Ok(noted)
}

/// For each row up to that of a commit, whether a walk to that commit may not pass through it: a fixed
/// event names it, or a last affected one, which doesn't count for the commit itself.
pub(crate) fn closed_rows(
    alloc: Global,
    graph: &Graph,
    events: &[Event],
    number: u32,
) -> Result<Vec<bool>, Memory>
    requires { number < length graph.now }
    ensures { IfOk result (λ v. AreRows (number + 1) v.items (is_closed graph.now events.now number)) }
{
    let mut noted = named_rows(alloc, graph, EventKind::Fixed, events, number as usize + 1)?;
    note_ended(graph, events, number, noted.as_mut_slice());
    Ok(noted)
}

// Beside the fixed commits, the last affected ones but that with this number.
fn note_ended(graph: &Graph, events: &[Event], number: u32, noted: &mut [bool])
    requires there { number < length graph.now }
    requires fixed { AreRows (number + 1) noted.old (λ n. is_named Fixed events.now (id_at graph.now n)) }
    ensures { AreRows (number + 1) noted.new (is_closed graph.now events.now number) }
{
    let number = number as usize;
    let fixed = noted[number];
    note_named(graph, EventKind::LastAffected, events, noted);
    noted[number] = fixed;
}

/// Notes the commits of the first rows that an event of the kind names, beside those that are noted.
pub(crate) fn note_named(graph: &Graph, kind: EventKind, events: &[Event], noted: &mut [bool])
    requires { length noted.old ≤ length graph.now }
    ensures { (n : ℕ) → n < length noted.old → slice_index_or noted.new n false
        ≡ (slice_index_or noted.old n false || is_named kind events.now (id_at graph.now n)) }
{
    for event in events {
        if let Some(number) = row_named(graph, kind, event) {
            let number = number as usize;
            if number < noted.len() {
                noted[number] = true;
            }
        }
    }
}

/// The number, from 0, of the row whose commit the event names, where the event is of the kind and the
/// graph has that commit. It is found by the commit's id, without a step through the graph.
pub fn row_named(graph: &Graph, kind: EventKind, event: &Event) -> Option<u32>
    ensures named { IsNamedRow graph.now kind event.now result }
    ensures within { IfSome result (λ n. n < length graph.now) }
{
    if !is_kind(kind, event.kind) {
        return None;
    }
    graph.number_of(&oid_of(event)?)
}
