ghost use Rattle.std.specs.Prelude.{◌≡◌, ◌+◌, ◌<◌, true, length};
ghost use Rattle.std.specs.Bool.{MatchBool};
ghost use Rattle.std.specs.List.{list_all};
ghost use Rattle.osv_prim.specs.Digits.{all_digits, identifiers_cmp, number};
ghost use Rattle.order_pypi.specs.Key.{local_weights, ranked_cmp, release_cmp, release_numbers};
ghost use Rattle.order_pypi.specs.Reading.{is_release_byte};

use crate::scan::tail;
use osv_prim::{digits_cmp, identifiers_cmp, split_digits};
use std::cmp::Ordering;

// Segments of digits are above the others.
const NUMBERS_BELOW: bool = false;

// Whether two releases are used up.
fn are_used(a: &[u8], b: &[u8]) -> bool
    ensures { MatchBool result (length a.now + length b.now ≡ 0) (0 < length a.now + length b.now) }
{
    a.is_empty() && b.is_empty()
}

/// Compares two releases number by number, the shorter one filled with zeros.
pub fn release_cmp(a: &[u8], b: &[u8]) -> Ordering
    requires left { list_all is_release_byte a.now ≡ true }
    requires right { list_all is_release_byte b.now ≡ true }
    ensures { result ≡ release_cmp (release_numbers a.now) (release_numbers b.now) }
{
    let mut a_rest = a;
    let mut b_rest = b;
    while !are_used(a_rest, b_rest) {
        let x = split_digits(a_rest);
        let y = split_digits(b_rest);
        match digits_cmp(x.run, y.run) {
            Ordering::Equal => {}
            order => return order,
        }
        a_rest = tail(x.rest);
        b_rest = tail(y.rest);
    }
    Ordering::Equal
}

/// Compares two parts by rank, then by number.
pub fn ranked_cmp(a_rank: u8, a: &[u8], b_rank: u8, b: &[u8]) -> Ordering
    requires left { all_digits a.now ≡ true }
    requires right { all_digits b.now ≡ true }
    ensures { result ≡ ranked_cmp (a_rank, number a.now) (b_rank, number b.now) }
{
    a_rank.cmp(&b_rank).then(digits_cmp(a, b))
}

/// Compares two local versions segment by segment; the empty text, which is none, is below the others.
pub fn local_cmp(a: &[u8], b: &[u8]) -> Ordering
    ensures { result ≡ identifiers_cmp (local_weights a.now) (local_weights b.now) }
{
    match (a, b) {
        ([], []) => Ordering::Equal,
        ([], _) => Ordering::Less,
        (_, []) => Ordering::Greater,
        _ => identifiers_cmp(NUMBERS_BELOW, a, b),
    }
}
