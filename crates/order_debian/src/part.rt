ghost use Rattle.std.specs.Prelude.{◌≡◌, ◌+◌, ◌<◌, true, length};
ghost use Rattle.std.specs.Bool.{MatchBool};
ghost use Rattle.std.specs.Ordering.{nat_cmp};
ghost use Rattle.std.specs.Cmp.Lexicographic.{slice_cmp};
ghost use Rattle.osv_prim.specs.Digits.{all_digits, digit_front, number};
ghost use Rattle.order_debian.specs.Cuts.{behind_front, first_rank, front, later};
ghost use Rattle.order_debian.specs.Turns.{rank, ranks, weight_cmp, weights, weights_cmp};

use osv_prim::{digits_cmp, split_digits};
use std::cmp::Ordering;

// A front without digits, the digits behind it, and what is left of the part.
#[derive(Clone, Copy)]
struct Turn<'a> {
    front: &'a [u8],
    digits: &'a [u8],
    rest: &'a [u8],
}

// `~` is below the end of a front, the end below letters, and letters below the other characters.
const TILDE: u16 = 0;

const END: u16 = 1;

const LETTERS: u16 = 2;

const OTHERS: u16 = 256;

// Where a character stands.
fn rank(byte: u8) -> u16
    ensures { result ≡ rank byte }
{
    if byte == b'~' {
        TILDE
    } else if byte.is_ascii_alphabetic() {
        LETTERS + byte as u16
    } else {
        OTHERS + byte as u16
    }
}

// The rank of a front's first character, or of its end.
fn first_rank(front: &[u8]) -> u16
    ensures { result ≡ first_rank front.now }
{
    match front {
        [] => END,
        [byte, ..] => rank(*byte),
    }
}

// Fronts without digits, character by character.
fn front_cmp(a: &[u8], b: &[u8]) -> Ordering
    ensures { result ≡ slice_cmp nat_cmp (ranks a.now) (ranks b.now) }
{
    let mut a_rest = a;
    let mut b_rest = b;
    while let ([x, a_after @ ..], [y, b_after @ ..]) = (a_rest, b_rest) {
        match rank(*x).cmp(&rank(*y)) {
            Ordering::Equal => {}
            order => return order,
        }
        a_rest = a_after;
        b_rest = b_after;
    }
    first_rank(a_rest).cmp(&first_rank(b_rest))
}

// What stands behind the front of a part.
#[tactic(auto, unfolding(crate::specs::Cuts::behind_front))]
fn behind_front(part: &[u8]) -> &[u8]
    ensures { result.now ≡ behind_front part.now }
{
    let mut rest = part;
    while let [byte, after @ ..] = rest {
        if byte.is_ascii_digit() {
            return rest;
        }
        rest = after;
    }
    rest
}

// The first turn of a part.
fn first_turn(part: &[u8]) -> Turn<'_>
    ensures front { result.front.now ≡ front part.now }
    ensures digits { result.digits.now ≡ digit_front (behind_front part.now) }
    ensures numeric { all_digits result.digits.now ≡ true }
    ensures rest { result.rest.now ≡ later part.now }
{
    let number = behind_front(part);
    let digits = split_digits(number);
    Turn {
        front: &part[..part.len() - number.len()],
        digits: digits.run,
        rest: digits.rest,
    }
}

// Turns: by their fronts, then by the numbers that their digits spell.
fn turn_cmp(a: &Turn<'_>, b: &Turn<'_>) -> Ordering
    requires left { all_digits a.now.digits.now ≡ true }
    requires right { all_digits b.now.digits.now ≡ true }
    ensures { result ≡ weight_cmp (ranks a.now.front.now, number a.now.digits.now) (ranks b.now.front.now, number b.now.digits.now) }
{
    front_cmp(a.front, b.front).then(digits_cmp(a.digits, b.digits))
}

// Whether two parts are used up.
fn are_used(a: &[u8], b: &[u8]) -> bool
    ensures { MatchBool result (length a.now + length b.now ≡ 0) (0 < length a.now + length b.now) }
{
    a.is_empty() && b.is_empty()
}

/// Compares two parts of versions turn by turn, in place (Debian Policy, 5.6.12).
pub fn part_cmp(a: &[u8], b: &[u8]) -> Ordering
    ensures { result ≡ weights_cmp (weights a.now) (weights b.now) }
{
    let mut a_rest = a;
    let mut b_rest = b;
    while !are_used(a_rest, b_rest) {
        let x = first_turn(a_rest);
        let y = first_turn(b_rest);
        match turn_cmp(&x, &y) {
            Ordering::Equal => {}
            order => return order,
        }
        a_rest = x.rest;
        b_rest = y.rest;
    }
    Ordering::Equal
}
