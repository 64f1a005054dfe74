ghost use Rattle.std.specs.Prelude.{◌≡◌, ◌==◌, ℕ, ◌^◌, ◌<◌, ◌&&◌, ◌||◌, List, map, length, IfOk, OnOk};
ghost use Rattle.std.specs.Arc.{arc_value};
ghost use Rattle.std.specs.List.{list_any};
ghost use Rattle.std.specs.List.Sorted.{IsStrictlySortedBy};
ghost use Rattle.std.specs.Ordering.{nat_cmp};
ghost use Rattle.osv_prim.specs.declared.package.PackageKey.{PackageKey as Key};
ghost use Rattle.package_index.specs.Index.{found};
ghost use Rattle.osv_record.specs.Advisories.{Advisory};
ghost use Rattle.record_moves.specs.Moved.{IsMoved};
ghost use Rattle.package_index.specs.Listing.{listed, lists_at};
ghost use Rattle.package_index.specs.Numbers.{number_of};
ghost use Rattle.package_index.specs.Noted.{noted, moved_at, IsSound};

use crate::distinct::sort_distinct;
use crate::growing::{Growing, add_record};
use crate::moving::moved_entries;
use crate::numbers::Texts;
use multimap::Multimap;
use osv_prim::{Memory, PackageKey};
use osv_record::Record;
use record_moves::Moves;
use std::alloc::Global;
use std::marker::Model;
use std::sync::Arc;

// With more texts of its own than this an index is built anew, so that the next ones share all.
const MOST_OWN: usize = 1_024;

/// The advisories of each package, by their indexes in the list that the index was built of. Names and
/// ecosystems are kept once, and stand in entries by their numbers.
#[derive(Drop)]
pub struct PackageIndex {
    names: Texts,
    ecosystems: Texts,
    listed: Multimap<(u32, u32), u32>,
}

impl Model for PackageIndex {
    ghost use Rattle.std.specs.Prelude.{length};
    ghost use Rattle.package_index.specs.Index.{Index};
    ghost use Rattle.package_index.specs.Noted.{AreGiven};

    ghost Value = { Index };

    ghost view = { λ i. record { names = i.names; ecosystems = i.ecosystems; entries = i.listed } };

    ghost invariant = { λ i. AreGiven (length i.names) (length i.ecosystems) i.listed };
}

impl PackageIndex {
    /// The index of advisories. It takes one look-up for each name and ecosystem of an entry, O(n log n)
    /// comparisons of numbers, and then at most 12 bytes for each entry and ecosystem under which it is listed,
    /// beside one copy of each name.
    pub fn build(alloc: Global, records: &[Arc<Record>]) -> Result<PackageIndex, Memory>
        requires { length records.now < 2 ^ 32 }
        ensures { IfOk result (λ index. (asked : Key) → found index asked ≡ listed (map (λ r. arc_value r) records.now) asked) }
    {
        let mut growing = Growing {
            names: Texts::new(alloc)?,
            ecosystems: Texts::new(alloc)?,
            entries: Vec::new(alloc),
        };
        for (index, advisory) in records.iter().enumerate() {
            add_record(alloc, &mut growing, advisory, index as u32)?;
        }
        let index = in_order(alloc, growing)?;
        Ok(index)
    }

    /// The indexes of the advisories with an entry of the asked package, ascending (OSV schema 1.6,
    /// "affected[].package"): the names are equal, and the asked ecosystem is the entry's, or has no `:`
    /// and is what stands before the first `:` of the entry's. It takes one look-up of each, and then
    /// O(log n) comparisons of numbers.
    pub fn listed(&self, asked: &PackageKey) -> &[u32]
        ensures { result.now ≡ found self.now asked.now }
    {
        let Some(name) = self.names.number(&asked.name) else {
            return &[];
        };
        let Some(ecosystem) = self.ecosystems.number(&asked.ecosystem) else {
            return &[];
        };
        self.listed.get(&(name, ecosystem))
    }

    /// The index of a later list of advisories, from this one of an earlier list and where the advisories of
    /// that are in it. It goes once over the entries, and reads the advisories that were added; where half of
    /// all were, or where many names came since indexes share them, it is built anew.
    pub fn renew(
        &self,
        alloc: Global,
        records: &[Arc<Record>],
        moves: &Moves,
    ) -> Result<PackageIndex, Memory>
        requires { length records.now < 2 ^ 32 }
        ensures { (old : List Advisory) → IsMoved moves.now old (map (λ r. arc_value r) records.now) → ((asked : Key) → found self.now asked ≡ listed old asked)
            → IfOk result (λ index. (asked : Key) → found index asked ≡ listed (map (λ r. arc_value r) records.now) asked) }
    {
        let is_much = moves.added.len() > records.len() / 2;
        if is_much || self.names.own() > MOST_OWN || self.ecosystems.own() > MOST_OWN {
            return PackageIndex::build(alloc, records);
        }
        let mut growing = self.moved(alloc, records.len(), moves)?;
        for place in moves.added.as_slice() {
            add_at(alloc, &mut growing, records, *place)?;
        }
        let index = in_order(alloc, growing)?;
        Ok(index)
    }

    // What is noted of the advisories that are still there, at their places in a list of so many.
    fn moved(&self, alloc: Global, count: usize, moves: &Moves) -> Result<Growing, Memory>
        ensures sound { IfOk result (λ g. IsSound g) }
        ensures noted { IfOk result (λ g. (e t : List ℕ) (j : ℕ) → noted g e t j ≡ moved_at self.now.entries moves.now.moved.items count (number_of self.now.names t) (number_of self.now.ecosystems e) j) }
    {
        let (keys, places) = self.listed.entries();
        Ok(Growing {
            names: self.names.another(alloc)?,
            ecosystems: self.ecosystems.another(alloc)?,
            entries: moved_entries(alloc, keys, places, moves.moved.as_slice(), count)?,
        })
    }
}

// Notes the advisory at a place of a list, where there is one.
fn add_at(
    alloc: Global,
    growing: &mut Growing,
    records: &[Arc<Record>],
    place: u32,
) -> Result<(), Memory>
    requires { IsSound growing.old }
    ensures sound { OnOk result (IsSound growing.new) }
    ensures noted { OnOk result ((e t : List ℕ) (i : ℕ) → noted growing.new e t i
        ≡ (noted growing.old e t i || (lists_at (map (λ r. arc_value r) records.now) (record { ecosystem = e; name = t }) place && (place == i)))) }
{
    match records.get(place as usize) {
        None => Ok(()),
        Some(advisory) => add_record(alloc, growing, advisory, place),
    }
}

// What was noted, ascending and once each.
fn in_order(alloc: Global, growing: Growing) -> Result<PackageIndex, Memory>
    requires { IsSound growing }
    ensures ascending { IfOk result (λ index. (asked : Key) → IsStrictlySortedBy nat_cmp (found index asked)) }
    ensures same { IfOk result (λ index. (asked : Key) (i : ℕ) → list_any (λ x. x == i) (found index asked) ≡ noted growing asked.ecosystem asked.name i) }
{
    let Growing {
        names,
        ecosystems,
        mut entries,
    } = growing;
    sort_distinct(&mut entries)?;
    let listed = Multimap::build(alloc, entries)?;
    Ok(PackageIndex {
        names: names.sealed(alloc)?,
        ecosystems: ecosystems.sealed(alloc)?,
        listed,
    })
}
