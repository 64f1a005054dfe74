ghost use Rattle.std.specs.Prelude.{◌≡◌, ◌==◌, option_map, IfSome, true, take, drop, length};
ghost use Rattle.std.specs.List.{position};
ghost use Rattle.osv_prim.specs.Digits.{all_digits};
ghost use Rattle.osv_prim.specs.Numerals.{is_numeral};
ghost use Rattle.fast_export.specs.Lines.{behind, begins, mark_digits, mark_of, is_file_letter, tells_file, is_file, field, other_fields, is_inline_text, is_inline_note, is_inline};

use memchr::memchr;
use osv_prim::read_u64;

/// The index of the first byte of this value.
pub(crate) fn index_of(byte: u8, text: &[u8]) -> Option<usize>
    ensures { result ≡ position (λ c. c == byte) text.now }
{
    memchr(byte, text)
}

/// What stands behind a word at the front of a line.
pub(crate) fn behind<'a>(word: &[u8], line: &'a [u8]) -> Option<&'a [u8]>
    ensures { option_map (λ t. t.now) result ≡ behind word.now line.now }
{
    line.strip_prefix(word)
}

pub(crate) fn begins(word: &[u8], line: &[u8]) -> bool
    ensures { result ≡ begins word.now line.now }
{
    behind(word, line).is_some()
}

fn all_digits(text: &[u8]) -> bool
    ensures { result ≡ all_digits text.now }
{
    text.iter().all(|byte| byte.is_ascii_digit())
}

// Whether the text is one digit or more.
fn is_numeral(text: &[u8]) -> bool
    ensures { result ≡ is_numeral text.now }
{
    !text.is_empty() && all_digits(text)
}

/// The digits of a mark, behind its colon.
#[tactic(auto, unfolding(crate::specs::Lines::mark_digits))]
pub(crate) fn mark_digits(text: &[u8]) -> Option<&[u8]>
    ensures { option_map (λ t. t.now) result ≡ mark_digits text.now }
{
    match text {
        [] => None,
        [colon, digits @ ..] => {
            if *colon == b':' && is_numeral(digits) {
                Some(digits)
            } else {
                None
            }
        }
    }
}

/// The number of a mark.
pub(crate) fn mark_of(text: &[u8]) -> Option<u64>
    ensures { result ≡ mark_of text.now }
{
    read_u64(mark_digits(text)?)
}

fn is_file_letter(byte: u8) -> bool
    ensures { result ≡ is_file_letter byte }
{
    matches!(byte, b'M' | b'D' | b'R' | b'C' | b'N')
}

#[tactic(auto, unfolding(crate::specs::Lines::tells_file))]
fn tells_file(line: &[u8]) -> bool
    ensures { result ≡ tells_file line.now }
{
    match line {
        [letter, space, ..] => *space == b' ' && is_file_letter(*letter),
        _ => false,
    }
}

/// Whether a line tells of a file of a commit.
#[tactic(auto, unfolding(crate::specs::Lines::is_file))]
pub(crate) fn is_file(line: &[u8]) -> bool
    ensures { result ≡ is_file line.now }
{
    tells_file(line) || line == b"deleteall".as_slice()
}

#[tactic(auto, unfolding(crate::specs::Lines::field))]
fn field(text: &[u8]) -> &[u8]
    ensures { result.now ≡ field text.now }
{
    match index_of(b' ', text) {
        Some(end) => &text[..end],
        None => text,
    }
}

#[tactic(auto, unfolding(crate::specs::Lines::other_fields))]
fn other_fields(text: &[u8]) -> &[u8]
    ensures { result.now ≡ other_fields text.now }
{
    match index_of(b' ', text) {
        Some(end) => &text[end + 1..],
        None => &[],
    }
}

#[tactic(auto, unfolding(crate::specs::Lines::is_inline_text))]
fn is_inline_text(text: &[u8]) -> bool
    ensures { result ≡ is_inline_text text.now }
{
    field(text) == b"inline".as_slice()
}

#[tactic(auto, unfolding(crate::specs::Lines::is_inline_note))]
fn is_inline_note(line: &[u8]) -> bool
    ensures { result ≡ is_inline_note line.now }
{
    match behind(b"N ", line) {
        Some(text) => is_inline_text(text),
        None => false,
    }
}

/// Whether a line puts a file's bytes, or a note's, into the stream itself.
#[tactic(auto, unfolding(crate::specs::Lines::is_inline))]
pub(crate) fn is_inline(line: &[u8]) -> bool
    ensures { result ≡ is_inline line.now }
{
    match behind(b"M ", line) {
        Some(text) => is_inline_text(other_fields(text)),
        None => is_inline_note(line),
    }
}
