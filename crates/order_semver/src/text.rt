ghost use Rattle.std.specs.Prelude.{◌≡◌, ◌<◌, IfOk, IfSome, length, string_bytes};
ghost use Rattle.std.specs.List.{count_by, position, position_or_len};
ghost use Rattle.osv_prim.specs.Digits.{is_dot};
ghost use Rattle.order_semver.specs.Reading.{completed, full_text, is_mark, missing, without_v};

use osv_prim::Memory;
use std::alloc::Global;

// The text without one leading `v`.
fn without_v(text: &str) -> &str
    ensures { result.now ≡ without_v text.now }
{
    let bytes = text.as_bytes();
    if !bytes.is_empty() && bytes[0] == b'v' {
        &text[1..]
    } else {
        text
    }
}

fn first_mark(text: &[u8]) -> Option<usize>
    ensures place { result ≡ position is_mark text.now }
    ensures within { IfSome result (λ i. i < length text.now) }
{
    text.iter().position(|byte| *byte == b'-' || *byte == b'+')
}

// Where the numbers end: at the first `-` or `+`, or at the end.
fn mark_place(text: &[u8]) -> usize
    ensures { result ≡ position_or_len is_mark text.now }
{
    first_mark(text).unwrap_or(text.len())
}

fn count_dots(text: &[u8]) -> usize
    ensures { result ≡ count_by is_dot text.now }
{
    text.iter().filter(|byte| **byte == b'.').count()
}

// What fills up to three numbers, by the number of dots.
fn missing(dots: usize) -> &'static str
    ensures { result.now ≡ missing dots }
{
    match dots {
        0 => ".0.0",
        1 => ".0",
        _ => "",
    }
}

fn completed(alloc: Global, text: &str) -> Result<String, Memory>
    ensures { IfOk result (λ s. string_bytes s ≡ completed text.now) }
{
    let at = mark_place(text.as_bytes());
    let numbers = &text[..at];
    let rest = &text[at..];
    let zeros = missing(count_dots(numbers.as_bytes()));
    Ok(format!(in alloc; "{numbers}{zeros}{rest}")?)
}

/// The text with three numbers before the first `-` or `+`, and without one leading `v`.
pub fn full_text(alloc: Global, text: &str) -> Result<String, Memory>
    ensures { IfOk result (λ s. string_bytes s ≡ full_text text.now) }
{
    completed(alloc, without_v(text))
}
