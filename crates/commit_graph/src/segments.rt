ghost use Rattle.std.specs.Prelude.{◌≡◌, ◌≢◌, ◌≤◌, ◌<◌, ◌^◌, ◌++◌, List, ℕ, length, take, slice_index_or, AllPairs, IfOk, IfSome};
ghost use Rattle.std.specs.List.{flat_map};
ghost use Rattle.osv_prim.specs.Graphs.{ids, number_of};
ghost use Rattle.osv_prim.specs.declared.oid.CommitRow.{CommitRow};
ghost use Rattle.commit_graph.specs.Segments.{seen, rows_of, numbers_of};

use crate::segment::Segment;
use osv_prim::{Memory, Oid};
use std::alloc::Global;
use std::sync::Arc;

// How many segments of one size are kept before they are made one.
const SIDE_BY_SIDE: usize = 15;

// Which part of a graph's rows a segment may have that others are made into, and how many rows at least. It bounds what one
// growth copies.
const PARTS: usize = 128;

const LEAST: usize = 4_096;

/// The segment, or the fresh rows, where the row with a number stands, and its index there. The largest
/// segments come first, so most rows are found at once.
pub(crate) fn place_of<'a>(
    segments: &'a [Arc<Segment>],
    fresh: &'a Segment,
    number: usize,
) -> (&'a Segment, usize)
    requires { number < length (rows_of (seen segments.now) fresh.now) }
    ensures within { result.1 < length result.0.now.rows }
    ensures row { (d : CommitRow) → slice_index_or (rows_of (seen segments.now) fresh.now) number d ≡ slice_index_or result.0.now.rows result.1 d }
    ensures numbers { (d : List ℕ) → slice_index_or (numbers_of (seen segments.now) fresh.now) number d ≡ slice_index_or result.0.now.numbers result.1 d }
{
    let mut index = number;
    for segment in segments {
        let count = segment.len();
        if index < count {
            return (segment, index);
        }
        index -= count;
    }
    (fresh, index)
}

/// The number of a commit's row in the segments and the fresh rows.
pub(crate) fn number_in(segments: &[Arc<Segment>], fresh: &Segment, oid: &Oid) -> Option<u32>
    requires { length (rows_of (seen segments.now) fresh.now) < 2 ^ 32 }
    ensures { result ≡ number_of (rows_of (seen segments.now) fresh.now) oid.now }
{
    let mut first = 0;
    for segment in segments {
        match segment.number_of(oid) {
            Some(index) => return Some((first + index) as u32),
            None => first += segment.len(),
        }
    }
    match fresh.number_of(oid) {
        Some(index) => Some((first + index) as u32),
        None => None,
    }
}

/// The same segments, shared.
pub(crate) fn shared(alloc: Global, segments: &[Arc<Segment>]) -> Result<Vec<Arc<Segment>>, Memory>
    ensures { IfOk result (λ v. seen v.items ≡ seen segments.now) }
{
    let mut own = Vec::with_capacity(alloc, segments.len().saturating_add(1))?;
    for segment in segments {
        own.push(Arc::try_clone(segment)?)?;
    }
    Ok(own)
}

// Whether a segment of so many rows is made one with those behind it, which has `whole` rows then: where it has at most a
// fifteenth of these, or half of these once the segment is about as large as it may be.
fn is_joined(rows: usize, behind: usize, whole: usize, most: usize) -> bool {
    whole <= most
        && (rows.saturating_mul(SIDE_BY_SIDE) <= behind
            || (rows <= behind && most <= whole.saturating_mul(2)))
}

/// Where the segments begin that are to be made one with so many rows behind them, and how many rows that
/// one has, in a graph of `total` rows: at the first that is small beside the rows behind it, and with them has at most a
/// small part of the graph. So of segments alike at most fifteen stand side by side, but for the large ones, of which a
/// graph has some two hundred at most each time that it grows to twice its size; a row is copied at most once for each time
/// that its segment becomes sixteen times as large, and once more; and what all versions of a graph keep together is little
/// more than the last.
pub(crate) fn small_from(segments: &[Arc<Segment>], count: usize, total: usize) -> (usize, usize)
    ensures { result.0 ≤ length segments.now }
{
    let most = (total / PARTS).max(LEAST);
    let mut place = (segments.len(), count);
    let mut behind = count;
    let mut index = segments.len();
    while index > 0 {
        index -= 1;
        let rows = segments[index].len();
        let whole = behind.saturating_add(rows);
        if is_joined(rows, behind, whole, most) {
            place = (index, whole);
        }
        behind = whole;
    }
    place
}

/// The segments from an index on and the fresh rows as one, with room for `count` rows.
pub(crate) fn merged(
    alloc: Global,
    segments: &[Arc<Segment>],
    from: usize,
    count: usize,
    fresh: Segment,
) -> Result<Segment, Memory>
    requires there { from ≤ length segments.now }
    requires differ { AllPairs (λ a b. a ≢ b) (ids (rows_of (seen segments.now) fresh)) }
    ensures rows { IfOk result (λ s. rows_of (take from (seen segments.now)) s ≡ rows_of (seen segments.now) fresh) }
    ensures numbers { IfOk result (λ s. numbers_of (take from (seen segments.now)) s ≡ numbers_of (seen segments.now) fresh) }
{
    if from == segments.len() {
        return Ok(fresh);
    }
    let mut whole = Segment::with_capacity(alloc, count)?;
    for index in from..segments.len() {
        whole = whole.with_rows(alloc, &segments[index])?;
    }
    whole.with_rows(alloc, &fresh)
}
