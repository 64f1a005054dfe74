ghost use Rattle.std.specs.Prelude.{◌≡◌, ◌+◌, ◌-◌, ◌*◌, ◌<◌, ◌≤◌, ◌^◌, IfSome, IsTrue, option_map, length, drop, take};
ghost use Rattle.osv_prim.specs.Digits.{number};
ghost use Rattle.osv_time.specs.Times.{has_form, fits, fraction, fraction_nanos};

use osv_prim::split_digits;

// `D` stands for a digit, and each other character for itself.
const FORM: &[u8] = b"DDDD-DD-DDTDD:DD:DD";

/// Whether a text begins as a date and a time of day do.
pub fn has_form(text: &[u8]) -> bool
    ensures value { result ≡ has_form text.now }
    ensures room { IsTrue result → 19 ≤ length text.now }
{
    text.len() >= 19 && fits(FORM, &text[..19])
}

fn fits(form: &[u8], text: &[u8]) -> bool
    ensures { result ≡ fits form.now text.now }
{
    form.iter().zip(text).all(|(form, byte)| if *form == b'D' {
        byte.is_ascii_digit()
    } else {
        byte == form
    })
}

/// The number that two digits at a place spell.
pub fn two(text: &[u8], at: usize) -> u32
    requires { at + 2 ≤ length text.now }
    ensures value { result ≡ number (take 2 (drop at text.now)) }
    ensures bound { result ≤ 2277 }
{
    digit_value(text[at]) * 10 + digit_value(text[at + 1])
}

/// The number that four digits at a place spell.
pub fn four(text: &[u8], at: usize) -> u32
    requires { at + 4 ≤ length text.now }
    ensures { result ≡ number (take 4 (drop at text.now)) }
{
    two(text, at) * 100 + two(text, at + 2)
}

fn digit_value(byte: u8) -> u32
    ensures value { result ≡ byte - 48 }
    ensures bound { result ≤ 207 }
{
    byte.saturating_sub(b'0') as u32
}

/// The digits of the fraction of a second, where what stands behind the seconds is `Z`, or `.`, one
/// to nine digits and `Z`.
pub fn fraction(text: &[u8]) -> Option<&[u8]>
    ensures value { option_map (λ d. d.now) result ≡ fraction text.now }
    ensures most { IfSome result (λ d. length d.now ≤ 9) }
{
    match text {
        [b'Z'] => Some(&[]),
        [b'.', rest @ ..] => {
            let digits = split_digits(rest);
            if digits.rest == b"Z".as_slice() && 1 <= digits.run.len() && digits.run.len() <= 9 {
                Some(digits.run)
            } else {
                None
            }
        }
        _ => None,
    }
}

/// The nanoseconds of a fraction of a second: its first digit tells tenths, the next hundredths.
pub fn fraction_nanos(digits: &[u8]) -> u64
    requires { length digits.now ≤ 9 }
    ensures { result ≡ fraction_nanos digits.now }
{
    let mut nanos = 0u64;
    let mut unit = 100_000_000u64;
    let mut rest = digits;
    while let [byte, after @ ..] = rest {
        nanos += digit_value(*byte) as u64 * unit;
        unit /= 10;
        rest = after;
    }
    nanos
}
