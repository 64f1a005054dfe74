ghost use Rattle.std.specs.Prelude.{◌≡◌, ◌^◌, ◌<◌, ℕ, List, length, map, filter, nat_le, take, IfOk};
ghost use Rattle.std.specs.Arc.{arc_value};
ghost use Rattle.std.specs.List.{AllZip};
ghost use Rattle.history.specs.declared.past.Past.{Past};
ghost use Rattle.history.specs.Prefixes.{records, graphs};
ghost use Rattle.impact_job.specs.Tables.{AreSetsOf};
ghost use Rattle.record_moves.specs.Moved.{IsMoved};
ghost use Rattle.repo_index.specs.Index.{IsIndexOf, found, kept_seen};
ghost use Rattle.repo_index.specs.Listing.{hit_indexes};
ghost use Rattle.repo_index.specs.Numbers.{AreNumbersOf};
ghost use Rattle.set_hits.specs.Places.{places_of};

use crate::keys::Keys;
use crate::noted::noted_of;
use crate::numbering::numbers_of_all;
use crate::picking::picked;
use impact_set::ImpactSet;
use multimap::Multimap;
use osv_prim::{List, Memory, RepoKey};
use osv_record::Record;
use package_index::sort_distinct;
use record_moves::Moves;
use std::alloc::Global;
use std::marker::Model;
use std::sync::Arc;

// With more keys of its own than this an index is built anew, so that the next ones share all.
const MOST_LATER: usize = 1_024;

/// The sets of the GIT ranges on each repository, each with its advisory's index in the list that the index
/// was built of. Those of withdrawn advisories, which never hit, are left out. Each repository's key is kept
/// once, and stands elsewhere by its number.
#[derive(Drop)]
pub struct RepoIndex {
    keys: Keys,
    // Of each advisory the numbers of its GIT ranges' repositories, and none where it is withdrawn.
    own: Vec<List<u32>>,
    noted: Multimap<u32, (u32, Arc<ImpactSet>)>,
}

impl Model for RepoIndex {
    ghost use Rattle.repo_index.specs.Index.{Index, all_seen};

    ghost Value = { Index };

    ghost view = { λ i. record { keys = i.keys; own = i.own.items; entries = all_seen i.noted } };
}

impl RepoIndex {
    /// The index of advisories, and of the sets of the GIT ranges of each, by entry and range. It takes a
    /// look-up of a key for each GIT range, O(n log n) comparisons of numbers, and then for each GIT range 16
    /// bytes and 8 more, for each advisory 24, and each key once.
    pub fn build(
        alloc: Global,
        advisories: &[Arc<Record>],
        sets: &[List<Arc<ImpactSet>>],
    ) -> Result<RepoIndex, Memory>
        requires { length advisories.now < 2 ^ 32 }
        ensures { (p : List Past) → map (λ a. arc_value a) advisories.now ≡ records p → AllZip (AreSetsOf p) (records p) sets.now → IfOk result (λ index. IsIndexOf index p) }
    {
        let mut keys = Keys::new(alloc)?;
        let own = numbers_of_all(alloc, &mut keys, advisories, sets, &[], &[])?;
        of_numbers(alloc, keys, own, sets)
    }

    /// The index of a later list of advisories, from this one of an earlier list and where the advisories of
    /// that are in it. It goes once over both lists, and reads the advisories that were added alone; where
    /// half of all were, or where many keys came since indexes share them, it is built anew.
    pub fn renew(
        &self,
        alloc: Global,
        advisories: &[Arc<Record>],
        moves: &Moves,
        sets: &[List<Arc<ImpactSet>>],
    ) -> Result<RepoIndex, Memory>
        requires { length advisories.now < 2 ^ 32 }
        ensures { (b p : List Past) → IsIndexOf self.now b → IsMoved moves.now (records b) (records p) → map (λ a. arc_value a) advisories.now ≡ records p → AllZip (AreSetsOf p) (records p) sets.now → IfOk result (λ index. IsIndexOf index p) }
    {
        let is_much = moves.added.len() > advisories.len() / 2;
        if is_much || self.keys.later() > MOST_LATER {
            return RepoIndex::build(alloc, advisories, sets);
        }
        let mut keys = self.keys.another(alloc)?;
        let moved = moves.moved.as_slice();
        let own = numbers_of_all(
            alloc,
            &mut keys,
            advisories,
            sets,
            self.own.as_slice(),
            moved,
        )?;
        of_numbers(alloc, keys, own, sets)
    }

    /// The indexes from `start` on of the advisories that affect a commit, whatever the packages of their
    /// entries, ascending: the first `most`. `places` are the repositories that have the commit, with its
    /// number in the graph of each. It looks once at most at the set of each GIT range on them, and where
    /// there is one repository at none behind the last that it gives. Only memory can fail.
    pub fn hits(
        &self,
        alloc: Global,
        places: &[(&RepoKey, u32)],
        start: usize,
        most: usize,
    ) -> Result<Vec<u32>, Memory>
        ensures { (p : List Past) (commit : List ℕ) → IsIndexOf self.now p → map (λ x. (x.0.now, x.1)) places.now ≡ places_of (graphs p) commit
            → IfOk result (λ v. v.items ≡ take most (filter (λ i. nat_le start i) (hit_indexes p commit))) }
    {
        if let [place] = places {
            return picked(alloc, self.under(place.0), place.1, start, most);
        }
        let mut indexes = Vec::new(alloc);
        for place in places {
            let kept = self.under(place.0);
            let own = picked(alloc, kept, place.1, start, kept.len())?;
            indexes.extend_from_slice(own.as_slice())?;
        }
        sort_distinct(&mut indexes)?;
        indexes.truncate(most);
        Ok(indexes)
    }

    // The sets under a key, by a look-up of it and O(log n) comparisons of numbers.
    fn under(&self, key: &RepoKey) -> &[(u32, Arc<ImpactSet>)]
        ensures { map kept_seen result.now ≡ found self.now key.now }
    {
        match self.keys.number(key) {
            None => &[],
            Some(number) => self.noted.get(&number),
        }
    }
}

// The index of the numbers of each advisory's repositories, and of its sets.
fn of_numbers(
    alloc: Global,
    keys: Keys,
    own: Vec<List<u32>>,
    sets: &[List<Arc<ImpactSet>>],
) -> Result<RepoIndex, Memory>
    requires { length own.items < 2 ^ 32 }
    ensures { (p : List Past) → AllZip (AreNumbersOf keys) (records p) own.items → AllZip (AreSetsOf p) (records p) sets.now → IfOk result (λ index. IsIndexOf index p) }
{
    let noted = noted_of(alloc, own.as_slice(), sets)?;
    Ok(RepoIndex {
        keys: keys.sealed(alloc)?,
        own,
        noted: Multimap::build(alloc, noted)?,
    })
}
