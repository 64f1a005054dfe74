ghost use Rattle.std.specs.Prelude.{◌≡◌, ◌+◌, ◌*◌, ◌<◌, ◌≤◌, IfSome, Option, pos, ◌+ℤ◌, ◌*ℤ◌, ◌≤ℤ◌, negsuc, length};
ghost use Rattle.osv_time.specs.Times.{date_of, clock_of, day_of, second_of_day, nanos_since_1970, time_of};

use crate::parts::{four, fraction, fraction_nanos, has_form, two};
use jiff_core::civil::Date;

/// The nanoseconds since 1970-01-01T00:00:00Z of a time `YYYY-MM-DDTHH:MM:SS`, then optionally `.`
/// and one to nine digits, then `Z` (RFC 3339, 5.6, with capitals and in UTC alone). None where the
/// text is no such time: the date has to exist in the Gregorian calendar, of which the year 0000 is
/// a leap year, the hour is 00 to 23, minute and second are 00 to 59.
#[tactic(auto, unfolding(crate::specs::Times::time_of))]
pub fn read(text: &str) -> Option<i128>
    ensures { result ≡ time_of text.now }
{
    let bytes = text.as_bytes();
    if !has_form(bytes) {
        return None;
    }
    let (_, tail) = bytes.split_at(19);
    let fraction = fraction(tail)?;
    let day = date_of(bytes)?;
    let second = clock_of(bytes)?;
    Some(nanos_since_1970(day, second, fraction_nanos(fraction)))
}

#[tactic(auto, unfolding(crate::specs::Times::date_of))]
fn date_of(text: &[u8]) -> Option<i32>
    requires { 19 ≤ length text.now }
    ensures { result ≡ date_of text.now }
{
    day_of(four(text, 0), two(text, 5), two(text, 8))
}

#[tactic(auto, unfolding(crate::specs::Times::clock_of))]
fn clock_of(text: &[u8]) -> Option<u32>
    requires { 19 ≤ length text.now }
    ensures value { result ≡ clock_of text.now }
    ensures bound { IfSome result (λ n. n < 86400) }
{
    second_of_day(two(text, 11), two(text, 14), two(text, 17))
}

fn day_of(year: u32, month: u32, day: u32) -> Option<i32>
    ensures value { result ≡ day_of year month day }
{
    if year > 9999 || month > 12 || day > 31 {
        return None;
    }
    match Date::new(year as i16, month as i8, day as i8) {
        Ok(date) => Some(date.to_unix_epoch_day()),
        Err(_) => None,
    }
}

fn second_of_day(hour: u32, minute: u32, second: u32) -> Option<u32>
    ensures value { result ≡ second_of_day hour minute second }
    ensures bound { IfSome result (λ n. n < 86400) }
{
    if hour > 23 || minute > 59 || second > 59 {
        return None;
    }
    Some((hour * 60 + minute) * 60 + second)
}

fn nanos_since_1970(day: i32, second: u32, nanos: u64) -> i128
    ensures { result ≡ nanos_since_1970 day second nanos }
{
    (day as i128 * 86_400 + second as i128) * 1_000_000_000 + nanos as i128
}
