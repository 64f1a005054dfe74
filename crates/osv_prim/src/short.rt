ghost use Rattle.std.specs.Prelude.{◌≡◌, ◌≤◌, length};

use std::marker::Model;
use std::str;

/// How many bytes a short text has at most.
pub(crate) const SHORT: usize = 22;

/// A text of at most 22 bytes, which stand in the value itself.
#[derive(Debug, Drop)]
pub(crate) struct Short {
    len: u8,
    bytes: [u8; SHORT],
}

impl Model for Short {
    ghost use Rattle.std.specs.Prelude.{List, ℕ, ◌≤◌, take, IsUtf8};

    ghost Value = { List ℕ };

    ghost view = { λ s. take s.len s.bytes };

    ghost invariant = { λ s. (s.len ≤ 22) × ∥ IsUtf8 (take s.len s.bytes) ∥₁ };
}

impl Short {
    /// A copy of a text.
    pub(crate) fn copy_of(text: &str) -> Short
        requires { length text.now ≤ 22 }
        ensures { result ≡ text.now }
    {
        let mut short = Short {
            len: 0,
            bytes: [0; SHORT],
        };
        short.fill(text);
        short
    }

    fn fill(&mut self, text: &str)
        requires { length text.now ≤ 22 }
        ensures { self.new ≡ text.now }
    {
        self.bytes[..text.len()].copy_from_slice(text.as_bytes());
        self.len = text.len() as u8;
    }

    /// The bytes of the text.
    pub(crate) fn as_bytes(&self) -> &[u8]
        ensures { result.now ≡ self.now }
    {
        &self.bytes[..self.len as usize]
    }

    /// The text.
    pub(crate) fn as_str(&self) -> &str
        ensures { result.now ≡ self.now }
    {
        // The bytes were a text's, so they need no second look.
        unsafe { str::from_utf8_unchecked(&self.bytes[..self.len as usize]) }
    }
}
