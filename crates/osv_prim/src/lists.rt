ghost use Rattle.std.specs.Prelude.{◌≡◌, ◌<◌, ◌≤◌, ◌+◌, ◌++◌, ◌∷◌, [], ◌↔◌, IfOk, OnOk, OnErr, IsTrue, length, option_map, position, slice_get, slice_index_or, sum_by};
ghost use Rattle.std.specs.List.{list_any, position_from};
ghost use Rattle.std.specs.Str.{bytes_eq};
ghost use Rattle.osv_prim.specs.Lists.{pieces, IsCut};

use crate::memory::Memory;
use std::alloc::Global;
use std::marker::Model;

/// Lists in a row, as the texts of a list or the parents of commits, which contracts see as a list of
/// lists. All members stand in one block, so a hundred lists cost no more allocations than a few, and a
/// list costs 4 bytes beside its members. They have fewer than 2^32 members in all.
#[derive(Debug, Drop)]
pub struct Lists<T> {
    items: Vec<T>,
    // Where each list ends in the block.
    ends: Vec<u32>,
}

impl<T> Model for Lists<T> {
    ghost use Rattle.std.specs.Prelude.{List, length};
    ghost use Rattle.osv_prim.specs.Lists.{pieces, IsCut};

    ghost Value = { List (List T) };

    ghost view = { λ l. pieces 0 l.ends.items l.items.items };

    ghost invariant = { λ l. IsCut 0 l.ends.items (length l.items.items) };
}

impl<T> Lists<T> {
    /// No list. It takes no memory before the first one.
    pub fn new(alloc: Global) -> Lists<T>
        ensures { result ≡ [] }
    {
        Lists {
            items: Vec::new(alloc),
            ends: Vec::new(alloc),
        }
    }

    /// No list, with room for `lists` of them, which have `items` members in all. Only memory can fail.
    pub fn with_capacity(alloc: Global, lists: usize, items: usize) -> Result<Lists<T>, Memory>
        ensures { IfOk result (λ l. l ≡ []) }
    {
        let ends = Vec::with_capacity(alloc, lists)?;
        Ok(Lists {
            items: Vec::with_capacity(alloc, items)?,
            ends,
        })
    }

    /// How many lists there are.
    #[tactic(auto, using(crate::proofs::Cuts::count))]
    pub fn len(&self) -> usize
        ensures { result ≡ length self.now }
    {
        self.ends.len()
    }

    /// Whether there is no list.
    #[tactic(auto, using(crate::proofs::Cuts::count))]
    pub fn is_empty(&self) -> bool
        ensures { IsTrue result ↔ (length self.now ≡ 0) }
    {
        self.ends.is_empty()
    }

    /// How many members the lists have in all.
    pub fn total(&self) -> usize
        ensures { result ≡ sum_by length self.now }
    {
        self.items.len()
    }

    /// The list at an index, from 0, which is one.
    pub fn at(&self, index: usize) -> &[T]
        requires { index < length self.now }
        ensures { result.now ≡ slice_index_or self.now index [] }
    {
        list_at(self.items.as_slice(), self.ends.as_slice(), index)
    }

    /// The list at an index, from 0.
    pub fn get(&self, index: usize) -> Option<&[T]>
        ensures { option_map (λ l. l.now) result ≡ slice_get self.now index }
    {
        if index < self.len() {
            Some(self.at(index))
        } else {
            None
        }
    }

    /// Puts a copy of a list at the end. Only memory can fail, for which 2^32 members in all count too,
    /// and the lists are then as they were.
    pub fn push(&mut self, list: &[T]) -> Result<(), Memory>
    where
        T: Copy,
        ensures ok { OnOk result (self.new ≡ self.old ++ list.now ∷ []) }
        ensures err { OnErr result (self.new ≡ self.old) }
    {
        push_list(&mut self.items, &mut self.ends, list)
    }
}

impl Lists<u8> {
    /// The index, from 0, of the first text that is this one. It compares them one by one.
    pub fn position(&self, text: &[u8]) -> Option<usize>
        ensures { result ≡ position (bytes_eq text.now) self.now }
    {
        position_in(self.items.as_slice(), self.ends.as_slice(), text)
    }

    /// Whether a text is among them. It compares them one by one.
    pub fn contains(&self, text: &[u8]) -> bool
        ensures { result ≡ list_any (bytes_eq text.now) self.now }
    {
        self.position(text).is_some()
    }
}

// Where a list behind so many members ends.
fn end_of(start: usize, count: usize) -> Result<u32, Memory>
    ensures { IfOk result (λ end. end ≡ start + count) }
{
    match start.checked_add(count) {
        Some(end) => u32::try_from(end).map_err(|_| Memory),
        None => Err(Memory),
    }
}

fn push_list<T: Copy>(items: &mut Vec<T>, ends: &mut Vec<u32>, list: &[T]) -> Result<(), Memory>
    ensures items { OnOk result (items.new.items ≡ items.old.items ++ list.now) }
    ensures ends { OnOk result (ends.new.items ≡ ends.old.items ++ length items.new.items ∷ []) }
    ensures items_stay { OnErr result (items.new.items ≡ items.old.items) }
    ensures ends_stay { OnErr result (ends.new.items ≡ ends.old.items) }
{
    let start = items.len();
    let end = end_of(start, list.len())?;
    items.extend_from_slice(list)?;
    match ends.push(end) {
        Ok(()) => Ok(()),
        Err(_) => {
            items.truncate(start);
            Err(Memory)
        }
    }
}

fn list_at<'a, T>(items: &'a [T], ends: &[u32], index: usize) -> &'a [T]
    requires cut { IsCut 0 ends.now (length items.now) }
    requires there { index < length ends.now }
    ensures { result.now ≡ slice_index_or (pieces 0 ends.now items.now) index [] }
{
    let start = start_of(ends, index);
    let end = ends[index] as usize;
    &items[start..end]
}

// Where the list at an index starts.
fn start_of(ends: &[u32], index: usize) -> usize
    requires { index ≤ length ends.now }
    ensures { result ≡ slice_index_or (0 ∷ ends.now) index 0 }
{
    if index == 0 {
        0
    } else {
        ends[index - 1] as usize
    }
}

fn position_in(bytes: &[u8], ends: &[u32], text: &[u8]) -> Option<usize>
    requires { IsCut 0 ends.now (length bytes.now) }
    ensures { result ≡ position_from (bytes_eq text.now) 0 (pieces 0 ends.now bytes.now) }
{
    let mut start = 0;
    let mut index = 0;
    let mut rest = ends;
    while let [end, after @ ..] = rest {
        let end = *end as usize;
        if text == &bytes[start..end] {
            return Some(index);
        }
        start = end;
        index += 1;
        rest = after;
    }
    None
}
