ghost use Rattle.std.specs.Prelude.{◌≡◌, ◌==◌, ◌||◌, ◌&&◌, option_map};
ghost use Rattle.std.specs.Char.{is_ascii_alphanumeric, is_ascii_digit};
ghost use Rattle.osv_prim.specs.Packages.{is_separator, lower};
ghost use Rattle.order_pypi.specs.Grammar.{behind_release, behind_segments, behind_separator, behind_v, behind_word, is_space, spelled, starts, tail, trim_end, trim_start};

fn lower(byte: u8) -> u8
    ensures { result ≡ lower byte }
{
    if byte.is_ascii_uppercase() {
        byte + 32
    } else {
        byte
    }
}

fn is_separator(byte: u8) -> bool
    ensures { result ≡ is_separator byte }
{
    byte == b'-' || byte == b'_' || byte == b'.'
}

/// A byte of a local version in its normal spelling.
pub fn spelled(byte: u8) -> u8
    ensures { result ≡ spelled byte }
{
    if is_separator(byte) {
        b'.'
    } else {
        lower(byte)
    }
}

fn is_space(byte: u8) -> bool
    ensures { result ≡ is_space byte }
{
    byte == b' ' || (9 <= byte && byte <= 13)
}

/// All but the first byte.
pub fn tail(text: &[u8]) -> &[u8]
    ensures { result.now ≡ tail text.now }
{
    match text {
        [] => text,
        [_, after @ ..] => after,
    }
}

pub fn starts_with(byte: u8, text: &[u8]) -> bool
    ensures { result ≡ starts (λ c. c == byte) text.now }
{
    match text {
        [] => false,
        [first, ..] => *first == byte,
    }
}

pub fn starts_with_digit(text: &[u8]) -> bool
    ensures { result ≡ starts is_ascii_digit text.now }
{
    match text {
        [] => false,
        [first, ..] => first.is_ascii_digit(),
    }
}

pub fn starts_with_alphanumeric(text: &[u8]) -> bool
    ensures { result ≡ starts is_ascii_alphanumeric text.now }
{
    match text {
        [] => false,
        [first, ..] => first.is_ascii_alphanumeric(),
    }
}

#[tactic(auto, unfolding(crate::specs::Grammar::trim_start))]
fn trim_start(text: &[u8]) -> &[u8]
    ensures { result.now ≡ trim_start text.now }
{
    let mut rest = text;
    while let [byte, after @ ..] = rest {
        if !is_space(*byte) {
            return rest;
        }
        rest = after;
    }
    rest
}

fn trim_end(text: &[u8]) -> &[u8]
    ensures { result.now ≡ trim_end text.now }
{
    let mut end = text.len();
    while end > 0 {
        if !is_space(text[end - 1]) {
            return &text[..end];
        }
        end -= 1;
    }
    &text[..end]
}

/// A text without the white space outside.
pub fn trimmed(text: &[u8]) -> &[u8]
    ensures { result.now ≡ trim_end (trim_start text.now) }
{
    trim_end(trim_start(text))
}

/// What stands behind a leading `v`, of which there may be none.
#[tactic(auto, unfolding(crate::specs::Grammar::behind_v))]
pub fn behind_v(text: &[u8]) -> &[u8]
    ensures { result.now ≡ behind_v text.now }
{
    match text {
        [first, after @ ..] if lower(*first) == b'v' => after,
        _ => text,
    }
}

/// What stands behind one separator, of which there may be none.
#[tactic(auto, unfolding(crate::specs::Grammar::behind_separator))]
pub fn behind_separator(text: &[u8]) -> &[u8]
    ensures { result.now ≡ behind_separator text.now }
{
    match text {
        [first, after @ ..] if is_separator(*first) => after,
        _ => text,
    }
}

/// What stands behind a word in either case, where the text begins with it.
#[tactic(auto, unfolding(crate::specs::Grammar::behind_word))]
pub fn behind_word<'a>(word: &[u8], text: &'a [u8]) -> Option<&'a [u8]>
    ensures { option_map (λ r. r.now) result ≡ behind_word word.now text.now }
{
    let mut letters = word;
    let mut rest = text;
    while let [letter, letters_after @ ..] = letters {
        let [byte, after @ ..] = rest else {
            return None;
        };
        if lower(*byte) != *letter {
            return None;
        }
        letters = letters_after;
        rest = after;
    }
    Some(rest)
}

// A release goes on at a digit, and at a dot before a digit.
fn is_in_release(byte: u8, after: &[u8]) -> bool
    ensures { result ≡ (is_ascii_digit byte || (byte == 46 && starts is_ascii_digit after.now)) }
{
    byte.is_ascii_digit() || (byte == b'.' && starts_with_digit(after))
}

/// What stands behind a release.
#[tactic(auto, unfolding(crate::specs::Grammar::behind_release))]
pub fn behind_release(text: &[u8]) -> &[u8]
    ensures { result.now ≡ behind_release text.now }
{
    let mut rest = text;
    while let [byte, after @ ..] = rest {
        if !is_in_release(*byte, after) {
            return rest;
        }
        rest = after;
    }
    rest
}

// Segments go on at a letter or digit, and at a separator before one of these.
fn is_in_segments(byte: u8, after: &[u8]) -> bool
    ensures { result ≡ (is_ascii_alphanumeric byte || (is_separator byte && starts is_ascii_alphanumeric after.now)) }
{
    byte.is_ascii_alphanumeric() || (is_separator(byte) && starts_with_alphanumeric(after))
}

/// What stands behind the segments of a local version.
#[tactic(auto, unfolding(crate::specs::Grammar::behind_segments))]
pub fn behind_segments(text: &[u8]) -> &[u8]
    ensures { result.now ≡ behind_segments text.now }
{
    let mut rest = text;
    while let [byte, after @ ..] = rest {
        if !is_in_segments(*byte, after) {
            return rest;
        }
        rest = after;
    }
    rest
}
