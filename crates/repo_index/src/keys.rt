ghost use Rattle.std.specs.Prelude.{◌≡◌, ◌^◌, ◌≤◌, ℕ, List, [], Some, None, length, IfOk, OnOk};
ghost use Rattle.package_index.specs.Numbers.{number_of};
ghost use Rattle.repo_index.specs.Numbers.{KeepNumbers};

use indexmap::IndexSet;
use osv_prim::{Memory, RepoKey};
use std::alloc::Global;
use std::marker::Model;
use std::sync::Arc;

// Numbers of keys have 32 bits.
const NUMBERS: usize = 1 << 32;

/// Keys of repositories, each once, which contracts see as the list of them: those that later indexes share,
/// and those that came since. The number of a key is its place.
#[derive(Drop)]
pub(crate) struct Keys {
    shared: Arc<IndexSet<RepoKey>>,
    later: IndexSet<RepoKey>,
}

impl Model for Keys {
    ghost use Rattle.std.specs.Prelude.{List, ℕ, ◌++◌, ◌≤◌, ◌^◌, length};
    ghost use Rattle.std.specs.Arc.{arc_value};

    ghost Value = { List (List ℕ) };

    ghost view = { λ k. (arc_value k.shared).keys ++ k.later.keys };

    ghost invariant = { λ k. length ((arc_value k.shared).keys ++ k.later.keys) ≤ 2 ^ 32 };
}

impl Keys {
    /// No keys.
    pub(crate) fn new(alloc: Global) -> Result<Keys, Memory>
        ensures { IfOk result (λ keys. keys ≡ []) }
    {
        Ok(Keys {
            shared: Arc::new(alloc, IndexSet::new(alloc))?,
            later: IndexSet::new(alloc),
        })
    }

    /// How many came since those that are shared.
    pub(crate) fn later(&self) -> usize {
        self.later.len()
    }

    /// The number of a key, by one look-up or two.
    pub(crate) fn number(&self, key: &RepoKey) -> Option<u32>
        ensures { result ≡ number_of self.now key.now }
    {
        if let Some(number) = self.shared.get_index_of(key) {
            return Some(number as u32);
        }
        match self.later.get_index_of(key) {
            None => None,
            Some(number) => Some((self.shared.len() + number) as u32),
        }
    }

    /// The number of a key, which it gets where it isn't there yet. It is refused, as for want of memory,
    /// where 2^32 keys are there.
    pub(crate) fn number_or_add(&mut self, alloc: Global, key: &RepoKey) -> Result<u32, Memory>
        ensures number { IfOk result (λ n. number_of self.new key.now ≡ Some n) }
        ensures kept { OnOk result (KeepNumbers self.old self.new) }
    {
        if let Some(number) = self.number(key) {
            return Ok(number);
        }
        self.add(alloc, key)
    }

    // The same for a key that isn't there.
    fn add(&mut self, alloc: Global, key: &RepoKey) -> Result<u32, Memory>
        requires absent { number_of self.old key.now ≡ None }
        ensures number { IfOk result (λ n. number_of self.new key.now ≡ Some n) }
        ensures kept { OnOk result (KeepNumbers self.old self.new) }
    {
        let number = self.shared.len() + self.later.len();
        if number >= NUMBERS {
            return Err(Memory);
        }
        let _ = self.later.insert(key.copy(alloc)?)?;
        Ok(number as u32)
    }

    /// The same keys, which later indexes can share where none shared any before.
    pub(crate) fn sealed(self, alloc: Global) -> Result<Keys, Memory>
        ensures { IfOk result (λ keys. keys ≡ self) }
    {
        let Keys { shared, mut later } = self;
        later.shrink_to_fit();
        if shared.len() > 0 {
            return Ok(Keys { shared, later });
        }
        Ok(Keys {
            shared: Arc::new(alloc, later)?,
            later: IndexSet::new(alloc),
        })
    }

    /// The same keys again, for one `Arc` more and a copy of those that came since.
    pub(crate) fn another(&self, alloc: Global) -> Result<Keys, Memory>
        ensures { IfOk result (λ keys. keys ≡ self.now) }
    {
        Ok(Keys {
            shared: Arc::try_clone(&self.shared)?,
            later: copy_of(alloc, &self.later)?,
        })
    }
}

fn copy_of(alloc: Global, keys: &IndexSet<RepoKey>) -> Result<IndexSet<RepoKey>, Memory>
    ensures { IfOk result (λ copy. copy.keys ≡ keys.now.keys) }
{
    let mut copy = IndexSet::with_capacity(alloc, keys.len())?;
    for key in keys.as_slice() {
        let _ = copy.insert(key.copy(alloc)?)?;
    }
    Ok(copy)
}
