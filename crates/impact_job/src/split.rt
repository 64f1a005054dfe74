ghost use Rattle.std.specs.Prelude.{◌≡◌, ◌≤◌, length, map, take, drop, true, false, option_map};
ghost use Rattle.std.specs.Arc.{arc_value};
ghost use Rattle.std.specs.List.Sorted.{IsPartitionPoint};
ghost use Rattle.impact_job.specs.Order.{Ascend, IsSplit, is_below, is_at, first_of, rest_of};

use osv_record::Record;
use std::sync::Arc;

/// Advisories in the order of their ids, parted at an id.
#[derive(Clone, Copy)]
pub struct Split<'a> {
    pub below: &'a [Arc<Record>],
    /// The one that has the id.
    pub found: Option<&'a Arc<Record>>,
    pub above: &'a [Arc<Record>],
}

/// The advisories below an id, which is given by its bytes, the one that has it, and those above it, by
/// O(log n) comparisons. They have to ascend by their ids.
pub fn split_at_id<'a>(records: &'a [Arc<Record>], id: &[u8]) -> Split<'a>
    ensures { Ascend (map (λ a. arc_value a) records.now)
        → IsSplit id.now (map (λ a. arc_value a) records.now) (map (λ a. arc_value a) result.below.now) (option_map (λ a. arc_value a.now) result.found) (map (λ a. arc_value a) result.above.now) }
{
    let (below, rest) = records.split_at(count_below(records, id));
    let (found, above) = first_with_id(rest, id);
    Split {
        below,
        found,
        above,
    }
}

fn is_below(advisory: &Arc<Record>, id: &[u8]) -> bool
    ensures { result ≡ is_below id.now (arc_value advisory.now) }
{
    advisory.id.as_str().as_bytes().cmp(id).is_lt()
}

fn has_id(advisory: &Arc<Record>, id: &[u8]) -> bool
    ensures { result ≡ is_at id.now (arc_value advisory.now) }
{
    advisory.id.as_str().as_bytes().cmp(id).is_eq()
}

fn count_below(records: &[Arc<Record>], id: &[u8]) -> usize
    ensures within { result ≤ length records.now }
    ensures point { Ascend (map (λ a. arc_value a) records.now)
        → IsPartitionPoint (λ a. is_below id.now (arc_value a) ≡ true) (λ a. is_below id.now (arc_value a) ≡ false) records.now result }
{
    records.partition_point(|advisory| is_below(advisory, id))
}

// The first advisory where it has the id, and those after it.
fn first_with_id<'a>(
    records: &'a [Arc<Record>],
    id: &[u8],
) -> (Option<&'a Arc<Record>>, &'a [Arc<Record>])
    ensures first { option_map (λ a. arc_value a.now) result.0 ≡ first_of id.now (map (λ a. arc_value a) records.now) }
    ensures rest { map (λ a. arc_value a) result.1.now ≡ rest_of id.now (map (λ a. arc_value a) records.now) }
{
    match records {
        [first, rest @ ..] if has_id(first, id) => (Some(first), rest),
        _ => (None, records),
    }
}

/// The first so many, or all where they are fewer, and those behind them.
pub(crate) fn parted<T>(items: &[T], count: usize) -> (&[T], &[T])
    ensures first { result.0.now ≡ take count items.now }
    ensures later { result.1.now ≡ drop count items.now }
{
    if count < items.len() {
        items.split_at(count)
    } else {
        (items, &[])
    }
}
