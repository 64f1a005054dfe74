ghost use Rattle.std.specs.Prelude.{◌≡◌, ◌<◌, ◌==◌, IfSome, length};
ghost use Rattle.std.specs.Char.{is_ascii_digit};
ghost use Rattle.std.specs.List.{list_all, position};
ghost use Rattle.std.specs.Option.{is_some};
ghost use Rattle.order_debian.specs.Reading.{after_epoch, epoch_of, is_cut, is_part, is_revision_character, is_upstream_character, last_place, revision_of, upstream_of};

// The first colon of a text.
pub fn first_colon(text: &[u8]) -> Option<usize>
    ensures place { result ≡ position (λ c. c == 58) text.now }
    ensures within { IfSome result (λ i. i < length text.now) }
{
    text.iter().position(|byte| *byte == b':')
}

// The last dash of a text.
pub fn last_dash(text: &[u8]) -> Option<usize>
    ensures place { result ≡ last_place 45 text.now }
    ensures within { IfSome result (λ i. i < length text.now) }
{
    let mut end = text.len();
    while end > 0 {
        end -= 1;
        if text[end] == b'-' {
            return Some(end);
        }
    }
    None
}

// The epoch before a colon; an absent one is 0.
pub fn epoch_of(colon: Option<usize>, text: &[u8]) -> &[u8]
    requires { IfSome colon (λ i. i < length text.now) }
    ensures { result.now ≡ epoch_of colon text.now }
{
    let Some(colon) = colon else {
        return b"0";
    };
    &text[..colon]
}

// What stands behind the epoch.
pub fn after_epoch(colon: Option<usize>, text: &[u8]) -> &[u8]
    requires { IfSome colon (λ i. i < length text.now) }
    ensures { result.now ≡ after_epoch colon text.now }
{
    let Some(colon) = colon else {
        return text;
    };
    &text[colon + 1..]
}

// The upstream version before a dash, or all that stands behind the epoch.
pub fn upstream_of(dash: Option<usize>, rest: &[u8]) -> &[u8]
    requires { IfSome dash (λ i. i < length rest.now) }
    ensures { result.now ≡ upstream_of dash rest.now }
{
    match dash {
        None => rest,
        Some(dash) => &rest[..dash],
    }
}

// The revision behind a dash; an absent one is 0.
pub fn revision_of(dash: Option<usize>, rest: &[u8]) -> &[u8]
    requires { IfSome dash (λ i. i < length rest.now) }
    ensures { result.now ≡ revision_of dash rest.now }
{
    match dash {
        None => b"0",
        Some(dash) => &rest[dash + 1..],
    }
}

fn is_revision_character(byte: u8) -> bool
    ensures { result ≡ is_revision_character byte }
{
    byte.is_ascii_alphanumeric() || byte == b'+' || byte == b'.' || byte == b'~'
}

fn is_upstream_character(has_epoch: bool, byte: u8) -> bool
    ensures { result ≡ is_upstream_character has_epoch byte }
{
    is_revision_character(byte) || byte == b'-' || (has_epoch && byte == b':')
}

fn are_digits(text: &[u8]) -> bool
    ensures { result ≡ list_all is_ascii_digit text.now }
{
    text.iter().all(|byte| byte.is_ascii_digit())
}

fn are_upstream_characters(has_epoch: bool, text: &[u8]) -> bool
    ensures { result ≡ list_all (is_upstream_character has_epoch) text.now }
{
    text.iter()
        .all(|byte| is_upstream_character(has_epoch, *byte))
}

fn are_revision_characters(text: &[u8]) -> bool
    ensures { result ≡ list_all is_revision_character text.now }
{
    text.iter().all(|byte| is_revision_character(*byte))
}

fn is_epoch(text: &[u8]) -> bool
    ensures { result ≡ is_part is_ascii_digit text.now }
{
    0 < text.len() && are_digits(text)
}

fn is_upstream(has_epoch: bool, text: &[u8]) -> bool
    ensures { result ≡ is_part (is_upstream_character has_epoch) text.now }
{
    0 < text.len() && are_upstream_characters(has_epoch, text)
}

fn is_revision(text: &[u8]) -> bool
    ensures { result ≡ is_part is_revision_character text.now }
{
    0 < text.len() && are_revision_characters(text)
}

// Whether a text that is cut at these places is a version.
pub fn is_cut(colon: Option<usize>, dash: Option<usize>, text: &[u8]) -> bool
    requires colon { IfSome colon (λ i. i < length text.now) }
    requires dash { IfSome dash (λ i. i < length (after_epoch colon text.now)) }
    ensures { result ≡ is_cut colon dash text.now }
{
    let rest = after_epoch(colon, text);
    is_epoch(epoch_of(colon, text))
        && is_upstream(colon.is_some(), upstream_of(dash, rest))
        && is_revision(revision_of(dash, rest))
}
