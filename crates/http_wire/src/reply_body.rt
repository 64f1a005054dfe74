ghost use Rattle.std.specs.Prelude.{◌≡◌, ◌≤◌, ◌++◌, ◌∷◌, ℕ, List, length, drop, vec_len};

use std::marker::Model;

/// How many bytes a head has at most.
pub(crate) const HEAD: usize = 256;

/// The body of a reply, which contracts see as its list of bytes. Where it was put behind room for a head, the head is
/// written into that room, and both go out together without a copy of the body.
#[derive(Debug, Drop)]
pub struct ReplyBody {
    bytes: Vec<u8>,
    start: usize,
}

impl Model for ReplyBody {
    ghost use Rattle.std.specs.Prelude.{List, ℕ, drop, vec_len, ◌≤◌};

    ghost Value = { List ℕ };

    ghost view = { λ b. drop b.start b.bytes.items };

    ghost invariant = { λ b. b.start ≤ vec_len b.bytes };
}

impl ReplyBody {
    /// The bytes of a vector, without a copy.
    pub fn from_vec(bytes: Vec<u8>) -> ReplyBody
        ensures { result ≡ bytes.items }
    {
        ReplyBody { bytes, start: 0 }
    }

    /// What stands behind the room for a head that `Out::room` gave.
    pub fn behind_room(bytes: Vec<u8>) -> ReplyBody
        requires { 256 ≤ vec_len bytes }
        ensures { (room text : List ℕ) → bytes.items ≡ room ++ text → length room ≡ 256 → result ≡ text }
    {
        ReplyBody { bytes, start: HEAD }
    }

    /// How many bytes it has.
    pub fn len(&self) -> usize
        ensures { result ≡ length self.now }
    {
        self.bytes.len() - self.start
    }

    /// The vector that it lies in, and where it starts there.
    pub(crate) fn into_parts(self) -> (Vec<u8>, usize)
        ensures value { self ≡ drop result.1 result.0.items }
        ensures within { result.1 ≤ vec_len result.0 }
    {
        (self.bytes, self.start)
    }
}
