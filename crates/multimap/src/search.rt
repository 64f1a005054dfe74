ghost use Rattle.std.specs.Prelude.{◌≡◌, ◌≤◌, true, false, length};
ghost use Rattle.std.specs.Ordering.{is_le, is_lt};
ghost use Rattle.std.specs.List.{zip};
ghost use Rattle.std.specs.List.Sorted.{IsPartitionPoint, IsSorted};
ghost use Rattle.multimap.specs.Entries.{values_of};

/// Of values whose keys ascend, those of one key.
pub(crate) fn values_at<'a, K: Ord, V>(keys: &[K], values: &'a [V], key: &K) -> &'a [V]
    requires ascending { IsSorted K.cmp keys.now }
    requires size { length values.now ≡ length keys.now }
    ensures { result.now ≡ values_of K.cmp (zip keys.now values.now) key.now }
{
    let start = count_below(keys, key);
    let end = count_up_to(keys, key);
    &values[start..end]
}

fn count_below<K: Ord>(keys: &[K], key: &K) -> usize
    requires { IsSorted K.cmp keys.now }
    ensures within { result ≤ length keys.now }
    ensures point { IsPartitionPoint (λ k. is_lt (K.cmp k key.now) ≡ true) (λ k. is_lt (K.cmp k key.now) ≡ false) keys.now result }
{
    keys.partition_point(|k| k.cmp(key).is_lt())
}

fn count_up_to<K: Ord>(keys: &[K], key: &K) -> usize
    requires { IsSorted K.cmp keys.now }
    ensures within { result ≤ length keys.now }
    ensures point { IsPartitionPoint (λ k. is_le (K.cmp k key.now) ≡ true) (λ k. is_le (K.cmp k key.now) ≡ false) keys.now result }
{
    keys.partition_point(|k| k.cmp(key).is_le())
}
