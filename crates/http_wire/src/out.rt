ghost use Rattle.std.specs.Prelude.{◌≡◌, ◌+◌, ◌≤◌, [], ◌++◌, length, IfOk, IsTrue};

use crate::reply_body::HEAD;
use osv_prim::Memory;
use std::alloc::Global;
use std::marker::Model;
use std::mem::replace;

/// How many bytes are written at once.
const SIZE: usize = 65_536;

/// How large a body's memory may be that is kept.
const MOST_SPARE: usize = 1 << 20;

/// Room for replies, taken once and kept from one reply to the next: 65,536 bytes for one whose head and body are put
/// together to be written, and the memory of the last body.
#[derive(Drop)]
pub struct Out {
    bytes: Vec<u8>,
    spare: Vec<u8>,
}

impl Model for Out {
    ghost use Rattle.std.specs.Prelude.{List, ℕ, vec_capacity, vec_len, ◌≤◌};

    ghost Value = { List ℕ };

    ghost view = { λ o. o.bytes.items };

    ghost invariant = { λ o. (vec_len o.bytes ≤ 65536) × (65536 ≤ vec_capacity o.bytes) };
}

impl Out {
    /// Room that has no bytes yet. Only memory can fail.
    pub fn new(alloc: Global) -> Result<Out, Memory> {
        Ok(Out {
            bytes: Vec::with_capacity(alloc, SIZE)?,
            spare: Vec::new(alloc),
        })
    }

    /// Room for a head, behind which a body is to be put, in the memory of the body before. Only memory can fail.
    pub fn room(&mut self, alloc: Global) -> Result<Vec<u8>, Memory>
        ensures { IfOk result (λ bytes. length bytes.items ≡ 256) }
    {
        let mut bytes = replace(&mut self.spare, Vec::new(alloc));
        bytes.clear();
        bytes.extend_from_slice(&[0; HEAD])?;
        Ok(bytes)
    }

    /// Keeps the memory of a body that was written, for the next one.
    pub(crate) fn keep(&mut self, bytes: Vec<u8>) {
        if bytes.capacity() <= MOST_SPARE {
            self.spare = bytes;
        }
    }

    /// Takes all bytes out.
    pub(crate) fn clear(&mut self)
        ensures { self.new ≡ [] }
    {
        self.bytes.clear();
    }

    pub(crate) fn as_slice(&self) -> &[u8]
        ensures { result.now ≡ self.now }
    {
        self.bytes.as_slice()
    }

    /// Whether so many bytes more have room.
    pub(crate) fn has_room(&self, count: usize) -> bool
        ensures { IsTrue result → length self.now + count ≤ 65536 }
    {
        count <= SIZE - self.bytes.len()
    }

    /// Puts a text behind the bytes.
    pub(crate) fn put(&mut self, text: &[u8])
        requires { length self.old + length text.now ≤ 65536 }
        ensures { self.new ≡ self.old ++ text.now }
    {
        match self.bytes.extend_from_slice(text) {
            Ok(()) => {}
            Err(_) => unreachable!(),
        }
    }
}
