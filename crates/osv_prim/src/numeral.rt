ghost use Rattle.std.specs.Prelude.{◌≡◌, ◌≤◌, ◌+◌, ◌-◌, ◌*◌, IfSome, true};
ghost use Rattle.std.specs.Char.{is_ascii_digit};
ghost use Rattle.osv_prim.specs.Digits.{all_digits, number};
ghost use Rattle.osv_prim.specs.Numerals.{fits, is_numeral, u64_in, u64_of};

/// The number that a text of one ASCII digit or more spells in base ten, or none for another text and
/// from 2^64 on. Zeros may lead it; a sign, a blank or a point is no digit.
pub fn read_u64(text: &[u8]) -> Option<u64>
    ensures { result ≡ u64_of text.now }
{
    if !is_numeral(text) {
        return None;
    }
    number(text)
}

/// The number that a text of 1 to `digits` ASCII digits spells in base ten, where it is at least `least`
/// and at most `most`, and none for each other text.
pub fn read_u64_in(text: &[u8], digits: usize, least: u64, most: u64) -> Option<u64>
    ensures value { result ≡ u64_in digits least most text.now }
    ensures range { IfSome result (λ n. (least ≤ n) × (n ≤ most)) }
{
    if digits < text.len() {
        return None;
    }
    let number = read_u64(text)?;
    if number < least || most < number {
        return None;
    }
    Some(number)
}

fn is_numeral(text: &[u8]) -> bool
    ensures { result ≡ is_numeral text.now }
{
    !text.is_empty() && all_digits(text)
}

fn all_digits(text: &[u8]) -> bool
    ensures { result ≡ all_digits text.now }
{
    text.iter().all(|byte| byte.is_ascii_digit())
}

// The number that digits spell, where it fits 64 bits.
fn number(digits: &[u8]) -> Option<u64>
    requires { all_digits digits.now ≡ true }
    ensures { result ≡ fits (number digits.now) }
{
    let mut number = 0u64;
    let mut rest = digits;
    while let [digit, after @ ..] = rest {
        number = with_digit(number, *digit)?;
        rest = after;
    }
    Some(number)
}

// The number with one more digit, where it fits 64 bits.
fn with_digit(number: u64, digit: u8) -> Option<u64>
    requires { is_ascii_digit digit ≡ true }
    ensures { result ≡ fits (number * 10 + (digit - 48)) }
{
    number.checked_mul(10)?.checked_add(u64::from(digit - b'0'))
}
