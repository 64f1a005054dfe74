ghost use Rattle.std.specs.Prelude.{◌≡◌, IfOk, IsTrue, ◌↔◌, length};

use crate::memory::Memory;
use std::alloc::Global;
use std::marker::Model;

/// Bytes on the heap, which contracts see as their list. They need be no text.
#[derive(Debug, Drop)]
pub struct Bytes {
    bytes: Vec<u8>,
}

impl Model for Bytes {
    ghost use Rattle.std.specs.Prelude.{List, ℕ};

    ghost Value = { List ℕ };

    ghost view = { λ b. b.bytes.items };
}

impl Bytes {
    /// The bytes of a vector, without a copy.
    pub fn from_vec(bytes: Vec<u8>) -> Bytes
        ensures { result ≡ bytes.items }
    {
        Bytes { bytes }
    }

    /// A copy of these bytes, in one allocation. Only memory can fail.
    pub fn copy_of(alloc: Global, bytes: &[u8]) -> Result<Bytes, Memory>
        ensures { IfOk result (λ b. b ≡ bytes.now) }
    {
        Ok(Bytes {
            bytes: bytes.to_vec(alloc)?,
        })
    }

    /// The vector that holds the bytes, without a copy.
    pub fn into_vec(self) -> Vec<u8>
        ensures { result.items ≡ self }
    {
        self.bytes
    }

    /// The bytes.
    pub fn as_slice(&self) -> &[u8]
        ensures { result.now ≡ self.now }
    {
        self.bytes.as_slice()
    }

    /// How many bytes there are.
    pub fn len(&self) -> usize
        ensures { result ≡ length self.now }
    {
        self.bytes.len()
    }

    /// Whether there is no byte.
    pub fn is_empty(&self) -> bool
        ensures { IsTrue result ↔ (length self.now ≡ 0) }
    {
        self.bytes.is_empty()
    }
}
