ghost use Rattle.std.specs.Prelude.{◌≡◌, ◌++◌, ◌∷◌, MatchOption};
ghost use Rattle.fast_export.specs.Lines.{IsClean};

use crate::line::index_of;

/// What stands before the first LF of a text, and what stands behind it.
pub(crate) fn next_line(text: &[u8]) -> Option<(&[u8], &[u8])>
    ensures { MatchOption result (IsClean text.now) (λ p. IsClean p.0.now × (text.now ≡ p.0.now ++ 10 ∷ p.1.now)) }
{
    match index_of(b'\n', text) {
        Some(end) => Some((&text[..end], &text[end + 1..])),
        None => None,
    }
}
