ghost use Rattle.std.specs.Prelude.{◌≡◌, ◌^◌, ◌≤◌, ℕ, List, [], Some, None, length, IfOk, OnOk};
ghost use Rattle.package_index.specs.Numbers.{number_of, IsKept};

use indexmap::IndexSet;
use osv_prim::{Memory, Text};
use std::alloc::Global;
use std::marker::Model;
use std::sync::Arc;

// Numbers of texts have 32 bits.
const NUMBERS: usize = 1 << 32;

/// Texts that have numbers, which contracts see as the list of them: those that later indexes share, and those
/// that came since.
#[derive(Drop)]
pub(crate) struct Texts {
    shared: Arc<IndexSet<Text>>,
    own: IndexSet<Text>,
}

impl Model for Texts {
    ghost use Rattle.std.specs.Prelude.{List, ℕ, ◌++◌, ◌≤◌, ◌^◌, length};
    ghost use Rattle.std.specs.Arc.{arc_value};

    ghost Value = { List (List ℕ) };

    ghost view = { λ t. (arc_value t.shared).keys ++ t.own.keys };

    ghost invariant = { λ t. length ((arc_value t.shared).keys ++ t.own.keys) ≤ 2 ^ 32 };
}

impl Texts {
    /// No texts.
    pub(crate) fn new(alloc: Global) -> Result<Texts, Memory>
        ensures { IfOk result (λ texts. texts ≡ []) }
    {
        Ok(Texts {
            shared: Arc::new(alloc, IndexSet::new(alloc))?,
            own: IndexSet::new(alloc),
        })
    }

    /// How many came since those that are shared.
    pub(crate) fn own(&self) -> usize {
        self.own.len()
    }

    /// The number of a text, by one look-up or two.
    pub(crate) fn number(&self, text: &Text) -> Option<u32>
        ensures { result ≡ number_of self.now text.now }
    {
        if let Some(number) = self.shared.get_index_of(text) {
            return Some(number as u32);
        }
        match self.own.get_index_of(text) {
            None => None,
            Some(number) => Some((self.shared.len() + number) as u32),
        }
    }

    /// The number of a text, which it gets where it isn't there yet. It is refused, as for want of memory,
    /// where 2^32 texts are there.
    pub(crate) fn number_or_add(&mut self, alloc: Global, text: &Text) -> Result<u32, Memory>
        ensures number { IfOk result (λ n. number_of self.new text.now ≡ Some n) }
        ensures kept { OnOk result ((t : List ℕ) → IsKept (length self.old) (number_of self.old t) (number_of self.new t)) }
        ensures longer { OnOk result (length self.old ≤ length self.new) }
    {
        if let Some(number) = self.number(text) {
            return Ok(number);
        }
        self.add(alloc, text)
    }

    // The same for a text that isn't there.
    fn add(&mut self, alloc: Global, text: &Text) -> Result<u32, Memory>
        requires absent { number_of self.old text.now ≡ None }
        ensures number { IfOk result (λ n. number_of self.new text.now ≡ Some n) }
        ensures kept { OnOk result ((t : List ℕ) → IsKept (length self.old) (number_of self.old t) (number_of self.new t)) }
        ensures longer { OnOk result (length self.old ≤ length self.new) }
    {
        let number = self.shared.len() + self.own.len();
        if number >= NUMBERS {
            return Err(Memory);
        }
        let _ = self.own.insert(text.copy(alloc)?)?;
        Ok(number as u32)
    }

    /// The same texts, which later indexes can share where none shared any before.
    pub(crate) fn sealed(self, alloc: Global) -> Result<Texts, Memory>
        ensures { IfOk result (λ texts. texts ≡ self) }
    {
        let Texts { shared, mut own } = self;
        own.shrink_to_fit();
        if shared.len() > 0 {
            return Ok(Texts { shared, own });
        }
        Ok(Texts {
            shared: Arc::new(alloc, own)?,
            own: IndexSet::new(alloc),
        })
    }

    /// The same texts again, for one `Arc` more and a copy of those that came since.
    pub(crate) fn another(&self, alloc: Global) -> Result<Texts, Memory>
        ensures { IfOk result (λ texts. texts ≡ self.now) }
    {
        Ok(Texts {
            shared: Arc::try_clone(&self.shared)?,
            own: copy_of(alloc, &self.own)?,
        })
    }
}

fn copy_of(alloc: Global, texts: &IndexSet<Text>) -> Result<IndexSet<Text>, Memory>
    ensures { IfOk result (λ copy. copy.keys ≡ texts.now.keys) }
{
    let mut copy = IndexSet::with_capacity(alloc, texts.len())?;
    for text in texts.as_slice() {
        let _ = copy.insert(text.copy(alloc)?)?;
    }
    Ok(copy)
}
