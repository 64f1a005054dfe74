ghost use Rattle.std.specs.Prelude.{◌≡◌, Bool, length, IfOk, OnOk};
ghost use Rattle.std.specs.List.{list_any, zip};
ghost use Rattle.std.specs.List.Sorted.{IsSortedByKey};
ghost use Rattle.multimap.specs.Entries.{values_of};

use crate::search::values_at;
use osv_prim::Memory;
use std::alloc::Global;
use std::marker::Model;

/// Values under keys, which contracts see as the list of keys and values in order. It holds what its keys
/// and values hold, and nothing beside.
#[derive(Drop)]
pub struct Multimap<K: Ord, V> {
    keys: Vec<K>,
    values: Vec<V>,
}

impl<K: Ord, V> Model for Multimap<K, V> {
    ghost use Rattle.std.specs.Prelude.{List};
    ghost use Rattle.std.specs.List.{zip};
    ghost use Rattle.multimap.specs.Entries.{IsInOrder};

    ghost Value = { List (K × V) };

    ghost view = { λ m. zip m.keys.items m.values.items };

    ghost invariant = { λ m. IsInOrder K.cmp m.keys.items m.values.items };
}

impl<K: Ord + Drop, V: Drop> Multimap<K, V> {
    /// The map with these entries, of which those with one key keep their order. It takes O(n log n)
    /// comparisons.
    pub fn build(alloc: Global, mut entries: Vec<(K, V)>) -> Result<Multimap<K, V>, Memory>
        ensures values { IfOk result (λ m. (key : K) → values_of K.cmp m key ≡ values_of K.cmp entries.items key) }
        ensures any { IfOk result (λ m. (test : K × V → Bool) → list_any test m ≡ list_any test entries.items) }
    {
        sort(&mut entries)?;
        split(alloc, entries)
    }

    /// The values of a key, in their order, which are none where it isn't there. It takes O(log n)
    /// comparisons.
    pub fn get(&self, key: &K) -> &[V]
        ensures { result.now ≡ values_of K.cmp self.now key.now }
    {
        values_at(self.keys.as_slice(), self.values.as_slice(), key)
    }

    /// The keys of all entries, in order, and the values beside them.
    pub fn entries(&self) -> (&[K], &[V])
        ensures entries { zip result.0.now result.1.now ≡ self.now }
        ensures size { length result.1.now ≡ length result.0.now }
    {
        (self.keys.as_slice(), self.values.as_slice())
    }
}

fn sort<K: Ord, V>(entries: &mut Vec<(K, V)>) -> Result<(), Memory>
    ensures sorted { OnOk result (IsSortedByKey (λ e. e.0) K.cmp entries.new.items) }
    ensures same { OnOk result ((key : K) → values_of K.cmp entries.new.items key ≡ values_of K.cmp entries.old.items key) }
    ensures any { (test : K × V → Bool) → list_any test entries.new.items ≡ list_any test entries.old.items }
{
    entries.sort_by(|a, b| a.0.cmp(&b.0))?;
    Ok(())
}

// The keys and the values apart.
fn split<K: Ord + Drop, V: Drop>(
    alloc: Global,
    entries: Vec<(K, V)>,
) -> Result<Multimap<K, V>, Memory>
    requires { IsSortedByKey (λ e. e.0) K.cmp entries.items }
    ensures { IfOk result (λ m. m ≡ entries.items) }
{
    let mut keys = Vec::with_capacity(alloc, entries.len())?;
    let mut values = Vec::with_capacity(alloc, entries.len())?;
    for (key, value) in entries {
        keys.push(key)?;
        values.push(value)?;
    }
    Ok(Multimap { keys, values })
}
