ghost use Rattle.std.specs.Prelude.{◌≡◌};
ghost use Rattle.id_index.specs.Heads.{BeginsWithBytes, behind, first_byte, head};

// How many bytes of an id count.
const BYTES: u32 = 16;

/// The number that the first sixteen bytes of an id are, the first byte the highest. A byte that isn't there
/// counts as 0.
pub(crate) fn head(id: &[u8]) -> u128
    ensures value { result ≡ head id.now }
    ensures bytes { BeginsWithBytes 16 id.now }
{
    let mut head = 0u128;
    let mut left = BYTES;
    let mut rest = id;
    while left > 0 {
        let (byte, later) = take_byte(rest);
        head = head * 256 + byte as u128;
        left -= 1;
        rest = later;
    }
    head
}

// The first byte, or 0 where there is none, and what is behind it.
fn take_byte(text: &[u8]) -> (u8, &[u8])
    ensures byte { result.0 ≡ first_byte text.now }
    ensures later { result.1.now ≡ behind text.now }
{
    match text {
        [byte, later @ ..] => (*byte, later),
        [] => (0, text),
    }
}
