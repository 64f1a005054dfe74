ghost use Rattle.std.specs.Prelude.{◌≡◌, ◌==◌, ◌<◌, IsTrue, is_some, length, slice_index};
ghost use Rattle.serde_json.specs.Read.{number_of, number_from, float_of};

use fast_float::Numeral;

/// Whether a 64-bit float can hold a number.
#[inline]
pub fn number_fits(text: &str) -> bool
    ensures { result ≡ is_some (number_of text.now) }
{
    let bytes = text.as_bytes();
    if has_minus(bytes) {
        numeral_fits(true, &Numeral::scan(&bytes[1..]))
    } else {
        numeral_fits(false, &Numeral::scan(bytes))
    }
}

fn has_minus(bytes: &[u8]) -> bool
    ensures value { result ≡ (slice_index bytes.now 0 == 45) }
    ensures len { IsTrue result → 0 < length bytes.now }
{
    !bytes.is_empty() && bytes[0] == b'-'
}

fn numeral_fits(negative: bool, numeral: &Numeral) -> bool
    ensures { result ≡ is_some (number_from negative numeral.now) }
{
    if negative {
        if let Some(number) = numeral.to_i64(true) {
            if number < 0 {
                return true;
            }
        }
    } else if numeral.to_u64().is_some() {
        return true;
    }
    numeral.to_float::<f64>(negative).is_finite()
}
