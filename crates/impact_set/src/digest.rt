ghost use Rattle.std.specs.Prelude.{◌≡◌, ◌+◌, ◌/◌, ◌<◌, ◌≤◌, ℕ, length, false, IfOk, slice_index_or};
ghost use Rattle.impact_set.specs.Digests.{AreTold};

use crate::bits::Bits;
use osv_prim::Memory;
use std::alloc::Global;
use std::marker::Model;

/// What is told of the bits of a block.
#[derive(Clone, Copy)]
pub(crate) enum Block {
    /// None is set.
    Empty,
    /// Each that is below the length is set.
    Full,
    /// Nothing is told: the bits have to be read.
    Mixed,
}

const _: () = prove!(size_of::<Block>() == 1);

/// How many bits a block has.
pub(crate) const BLOCK: usize = 4096;

/// Bits that change no more, and what is told of each block of them. Most blocks are empty or full, so a
/// look-up mostly reads one byte, of some hundreds that lie together, and not one of all the words.
#[derive(Drop)]
pub(crate) struct Digested {
    blocks: Vec<Block>,
    bits: Bits,
}

impl Model for Digested {
    ghost use Rattle.std.specs.Prelude.{List, Bool};
    ghost use Rattle.impact_set.specs.Digests.{IsDigest};

    ghost Value = { List Bool };

    ghost view = { λ d. d.bits };

    ghost invariant = { λ d. IsDigest d.blocks.items d.bits };
}

impl Digested {
    pub(crate) fn of(alloc: Global, bits: Bits) -> Result<Digested, Memory>
        ensures { IfOk result (λ d. d ≡ bits) }
    {
        let blocks = told(alloc, &[], &bits)?;
        Ok(Digested { blocks, bits })
    }

    /// These bits, the first of which are those of `old`: the blocks that `old` fills are not looked at again.
    pub(crate) fn grown(alloc: Global, old: &Digested, bits: Bits) -> Result<Digested, Memory>
        requires within { length old.now ≤ length bits }
        requires same { (n : ℕ) → n < length old.now → slice_index_or bits n false ≡ slice_index_or old.now n false }
        ensures { IfOk result (λ d. d ≡ bits) }
    {
        let whole = old.bits.len() / BLOCK;
        let blocks = told(alloc, &old.blocks.as_slice()[..whole], &bits)?;
        Ok(Digested { blocks, bits })
    }

    pub(crate) fn bits(&self) -> &Bits
        ensures { result.now ≡ self.now }
    {
        &self.bits
    }

    pub(crate) fn len(&self) -> usize
        ensures { result ≡ length self.now }
    {
        self.bits.len()
    }

    pub(crate) fn get(&self, number: usize) -> bool
        requires { number < length self.now }
        ensures { result ≡ slice_index_or self.now number false }
    {
        match self.blocks[number / BLOCK] {
            Block::Empty => false,
            Block::Full => true,
            Block::Mixed => self.bits.get(number),
        }
    }
}

// What is told of each block, where it is told of the first ones.
fn told(alloc: Global, known: &[Block], bits: &Bits) -> Result<Vec<Block>, Memory>
    requires within { length known.now ≤ length bits.now / 4096 + 1 }
    requires known { AreTold known.now bits.now }
    ensures size { IfOk result (λ v. length v.items ≡ length bits.now / 4096 + 1) }
    ensures told { IfOk result (λ v. AreTold v.items bits.now) }
{
    let count = bits.len() / BLOCK + 1;
    let mut blocks = Vec::with_capacity(alloc, count)?;
    blocks.extend_from_slice(known)?;
    for block in known.len()..count {
        blocks.push(bits.block(block))?;
    }
    Ok(blocks)
}
