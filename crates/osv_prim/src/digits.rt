ghost use Rattle.std.specs.Prelude.{◌≡◌, ◌<◌, ◌≤◌, if◌then◌else◌, true, IfSome, length, option_map};
ghost use Rattle.std.specs.List.{position};
ghost use Rattle.std.specs.Ordering.{nat_cmp};
ghost use Rattle.std.specs.declared.cmp.Ordering.TheVariants.{Less, Greater};
ghost use Rattle.osv_prim.specs.Digits.{all_digits, behind_digits, digit_front, first_part, identifier_cmp, identifier_weight, identifier_weights, identifiers_cmp, is_dot, next_part, number, without_zeros};

use std::cmp::Ordering;

// The digits without the zeros that lead them.
#[tactic(auto, unfolding(crate::specs::Digits::without_zeros))]
fn without_zeros(digits: &[u8]) -> &[u8]
    ensures { result.now ≡ without_zeros digits.now }
{
    let mut rest = digits;
    while let [b'0', after @ ..] = rest {
        rest = after;
    }
    rest
}

/// Compares the numbers that two runs of ASCII digits spell; an empty run is 0. The runs may have any
/// length: no number is made, so the cost is that of comparing two texts.
#[tactic(auto, using(crate::proofs::Numbers::compared))]
pub fn digits_cmp(a: &[u8], b: &[u8]) -> Ordering
    requires left { all_digits a.now ≡ true }
    requires right { all_digits b.now ≡ true }
    ensures { result ≡ nat_cmp (number a.now) (number b.now) }
{
    let a = without_zeros(a);
    let b = without_zeros(b);
    a.len().cmp(&b.len()).then(a.cmp(b))
}

/// A text's longest front of ASCII digits, and what stands behind it.
#[derive(Clone, Copy)]
pub struct Digits<'a> {
    /// The digits; there may be none.
    pub run: &'a [u8],
    /// What stands behind them. It is empty, or begins with a byte that is no digit.
    pub rest: &'a [u8],
}

// What stands behind the digits that lead a text.
#[tactic(auto, unfolding(crate::specs::Digits::behind_digits))]
fn behind_digits(text: &[u8]) -> &[u8]
    ensures { result.now ≡ behind_digits text.now }
{
    let mut rest = text;
    while let [byte, after @ ..] = rest {
        if !byte.is_ascii_digit() {
            return rest;
        }
        rest = after;
    }
    rest
}

/// Cuts the ASCII digits off a text's front. The cost is one look at each digit.
pub fn split_digits(text: &[u8]) -> Digits<'_>
    ensures run { result.run.now ≡ digit_front text.now }
    ensures numeric { all_digits result.run.now ≡ true }
    ensures rest { result.rest.now ≡ behind_digits text.now }
    ensures shorter { length result.rest.now ≤ length text.now }
{
    let rest = behind_digits(text);
    Digits {
        run: &text[..text.len() - rest.len()],
        rest,
    }
}

// What stands before the first dot of a text, and what stands behind that dot.
#[derive(Clone, Copy)]
struct Cut<'a> {
    first: &'a [u8],
    rest: Option<&'a [u8]>,
}

fn first_dot(text: &[u8]) -> Option<usize>
    ensures place { result ≡ position is_dot text.now }
    ensures within { IfSome result (λ i. i < length text.now) }
{
    text.iter().position(|byte| *byte == b'.')
}

fn cut_first(text: &[u8]) -> Cut<'_>
    ensures first { result.first.now ≡ first_part text.now }
    ensures rest { option_map (λ r. r.now) result.rest ≡ next_part text.now }
{
    match first_dot(text) {
        None => Cut {
            first: text,
            rest: None,
        },
        Some(dot) => Cut {
            first: &text[..dot],
            rest: Some(&text[dot + 1..]),
        },
    }
}

fn is_numeric(identifier: &[u8]) -> bool
    ensures { result ≡ all_digits identifier.now }
{
    identifier.iter().all(|byte| byte.is_ascii_digit())
}

fn side(below: bool) -> Ordering
    ensures { result ≡ (if below then Less else Greater) }
{
    if below {
        Ordering::Less
    } else {
        Ordering::Greater
    }
}

// Numbers as numbers, other identifiers by their bytes, and all numbers on one side of those.
fn identifier_cmp(numbers_below: bool, a: &[u8], b: &[u8]) -> Ordering
    ensures { result ≡ identifier_cmp (identifier_weight numbers_below a.now) (identifier_weight numbers_below b.now) }
{
    match (is_numeric(a), is_numeric(b)) {
        (true, true) => digits_cmp(a, b),
        (true, false) => side(numbers_below),
        (false, true) => side(!numbers_below),
        (false, false) => a.cmp(b),
    }
}

/// Compares two texts identifier by identifier, which dots divide: runs of digits as numbers, the others
/// by their bytes, and numbers below the others or above them. A text that is another's front is below it.
pub fn identifiers_cmp(numbers_below: bool, a: &[u8], b: &[u8]) -> Ordering
    ensures { result ≡ identifiers_cmp (identifier_weights numbers_below a.now) (identifier_weights numbers_below b.now) }
{
    let mut a_rest = a;
    let mut b_rest = b;
    'parts: loop {
        let x = cut_first(a_rest);
        let y = cut_first(b_rest);
        match identifier_cmp(numbers_below, x.first, y.first) {
            Ordering::Equal => {}
            order => return order,
        }
        match (x.rest, y.rest) {
            (Some(a_after), Some(b_after)) => {
                a_rest = a_after;
                b_rest = b_after;
            }
            (Some(_), None) => return Ordering::Greater,
            (None, Some(_)) => return Ordering::Less,
            (None, None) => return Ordering::Equal,
        }
    }
}
