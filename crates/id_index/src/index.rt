ghost use Rattle.std.specs.Prelude.{◌≡◌, ◌≤◌, List, length, drop, take, map, option_map, slice_get, IfOk, IfSome, OnOk, ◌<◌, nat_lt, nat_le, true, false};
ghost use Rattle.std.specs.Arc.{arc_value};
ghost use Rattle.std.specs.List.Sorted.{IsNonDecreasing, IsPartitionPoint};
ghost use Rattle.impact_job.specs.Order.{Ascend};
ghost use Rattle.osv_record.specs.Advisories.{Advisory};
ghost use Rattle.record_moves.specs.Moved.{IsMoved};
ghost use Rattle.id_index.specs.Found.{IsFoundIn};
ghost use Rattle.id_index.specs.Heads.{AreFirst, IsHeadAt, IsIndexOf};

use crate::head::head;
use crate::hints::Hints;
use impact_job::split_at_id;
use osv_prim::Memory;
use osv_record::Record;
use record_moves::Moves;
use std::alloc::Global;
use std::marker::Model;
use std::sync::Arc;

/// The first bytes of the ids of advisories, side by side, so that a look-up goes to few advisories beside the
/// one that it finds. Contracts see their numbers.
#[derive(Drop)]
pub struct IdIndex {
    heads: Vec<u128>,
    hints: Hints,
}

impl Model for IdIndex {
    ghost use Rattle.std.specs.Prelude.{List, ℕ};

    ghost Value = { List ℕ };

    ghost view = { λ i. i.heads.items };
}

impl IdIndex {
    /// The index of advisories, with 28 bytes for each. Only memory can fail.
    pub fn build(alloc: Global, records: &[Arc<Record>]) -> Result<IdIndex, Memory>
        ensures { IfOk result (λ index. IsIndexOf index (map (λ a. arc_value a) records.now)) }
    {
        let mut heads = Vec::with_capacity(alloc, records.len())?;
        let mut rest = records;
        while let [record, later @ ..] = rest {
            heads.push(head(record.id.as_str().as_bytes()))?;
            rest = later;
        }
        let hints = Hints::build(alloc, records)?;
        Ok(IdIndex { heads, hints })
    }

    /// The index of a later list of advisories, from this one of an earlier list and where the advisories of
    /// that are in it. It reads the ids of those that were added. Only memory can fail.
    pub fn renew(
        &self,
        alloc: Global,
        records: &[Arc<Record>],
        moves: &Moves,
    ) -> Result<IdIndex, Memory>
        ensures { (old : List Advisory) → IsMoved moves.now old (map (λ a. arc_value a) records.now) → IsIndexOf self.now old → IfOk result (λ index. IsIndexOf index (map (λ a. arc_value a) records.now)) }
    {
        let mut heads = Vec::with_capacity(alloc, records.len())?;
        let known = self.heads.as_slice();
        for index in 0..known.len() {
            put_known(
                &mut heads,
                records,
                moves.moved.as_slice(),
                index,
                known[index],
            )?;
        }
        put_heads(&mut heads, records, records.len())?;
        let hints = self.hints.renew(alloc, records, moves)?;
        Ok(IdIndex { heads, hints })
    }

    /// The advisory that has an id, which is given by its bytes: mostly at once, else by O(log n) comparisons of
    /// numbers, and of ids only where they begin with the same sixteen bytes. The advisories are those that the index
    /// is of, and have to ascend by their ids.
    pub fn find<'a>(&self, records: &'a [Arc<Record>], id: &[u8]) -> Option<&'a Arc<Record>>
        ensures { IsIndexOf self.now (map (λ a. arc_value a) records.now) → Ascend (map (λ a. arc_value a) records.now)
            → IsFoundIn id.now (map (λ a. arc_value a) records.now) (option_map (λ a. arc_value a.now) result) }
    {
        match self.hints.find(records, id) {
            Some(found) => Some(found),
            None => self.search(records, id),
        }
    }

    // The same by the heads.
    fn search<'a>(&self, records: &'a [Arc<Record>], id: &[u8]) -> Option<&'a Arc<Record>>
        ensures { IsIndexOf self.now (map (λ a. arc_value a) records.now) → Ascend (map (λ a. arc_value a) records.now)
            → IsFoundIn id.now (map (λ a. arc_value a) records.now) (option_map (λ a. arc_value a.now) result) }
    {
        let heads = self.heads.as_slice();
        let wanted = head(id);
        let start = count_below(heads, wanted);
        let (_, later_heads) = heads.split_at(start);
        let later = behind(records, start);
        let same = first(later, count_upto(later_heads, wanted));
        split_at_id(same, id).found
    }
}

// The heads of advisories up to a place, behind those that are there.
fn put_heads(heads: &mut Vec<u128>, records: &[Arc<Record>], upto: usize) -> Result<(), Memory>
    requires { upto ≤ length records.now }
    ensures first { AreFirst heads.old.items (map (λ a. arc_value a) records.now) → OnOk result (AreFirst heads.new.items (map (λ a. arc_value a) records.now)) }
    ensures count { OnOk result (upto ≤ length heads.new.items) }
{
    for place in heads.len()..upto {
        heads.push(head(records[place].id.as_str().as_bytes()))?;
    }
    Ok(())
}

// The heads up to the new place of the advisory with an old index, where it isn't gone, and its own, which is known.
fn put_known(
    heads: &mut Vec<u128>,
    records: &[Arc<Record>],
    moved: &[u32],
    index: usize,
    known: u128,
) -> Result<(), Memory>
    ensures first { AreFirst heads.old.items (map (λ a. arc_value a) records.now) → IfSome (slice_get moved.now index) (λ place. IsHeadAt known place (map (λ a. arc_value a) records.now))
        → OnOk result (AreFirst heads.new.items (map (λ a. arc_value a) records.now)) }
{
    match moved.get(index) {
        Some(place) if (*place as usize) < records.len() => {
            put_at(heads, records, *place as usize, known)
        }
        _ => Ok(()),
    }
}

fn put_at(
    heads: &mut Vec<u128>,
    records: &[Arc<Record>],
    place: usize,
    known: u128,
) -> Result<(), Memory>
    requires { place < length records.now }
    ensures first { AreFirst heads.old.items (map (λ a. arc_value a) records.now) → IsHeadAt known place (map (λ a. arc_value a) records.now)
        → OnOk result (AreFirst heads.new.items (map (λ a. arc_value a) records.now)) }
{
    put_heads(heads, records, place)?;
    if heads.as_slice().len() == place {
        heads.push(known)?;
    }
    Ok(())
}

// The advisories behind the first so many.
fn behind(records: &[Arc<Record>], count: usize) -> &[Arc<Record>]
    ensures { result.now ≡ drop count records.now }
{
    match records.split_at_checked(count) {
        Some((_, later)) => later,
        None => &[],
    }
}

// The first so many advisories, or all.
fn first(records: &[Arc<Record>], count: usize) -> &[Arc<Record>]
    ensures { result.now ≡ take count records.now }
{
    match records.split_at_checked(count) {
        Some((first, _)) => first,
        None => records,
    }
}

// How many heads are below a number. They have to rise.
fn count_below(heads: &[u128], number: u128) -> usize
    ensures within { result ≤ length heads.now }
    ensures point { IsNonDecreasing heads.now → IsPartitionPoint (λ h. nat_lt h number ≡ true) (λ h. nat_lt h number ≡ false) heads.now result }
{
    heads.partition_point(|head| *head < number)
}

// How many heads are below a number or equal to it. They have to rise.
fn count_upto(heads: &[u128], number: u128) -> usize
    ensures within { result ≤ length heads.now }
    ensures point { IsNonDecreasing heads.now → IsPartitionPoint (λ h. nat_le h number ≡ true) (λ h. nat_le h number ≡ false) heads.now result }
{
    heads.partition_point(|head| *head <= number)
}
