ghost use Rattle.std.specs.Prelude.{◌≡◌, true, false, map, IfSome, MatchOption, option_map};
ghost use Rattle.std.specs.List.{list_all};
ghost use Rattle.std.specs.Option.{option_map_or};
ghost use Rattle.osv_prim.specs.Digits.{all_digits};
ghost use Rattle.order_pypi.specs.Grammar.{behind_dev, behind_epoch, behind_local, behind_number, behind_post, behind_pre, behind_release, dev_of, epoch_of, local_of, number_behind, post_of, pre_of, release_of};
ghost use Rattle.order_pypi.specs.Reading.{IsSpelled, is_release_byte, is_version, parts};
ghost use Rattle.order_pypi.specs.Slices.{seen};

use crate::scan::{
    behind_release, behind_segments, behind_separator, behind_v, starts_with,
    starts_with_alphanumeric, starts_with_digit, tail, trimmed,
};
use crate::word::{PreWord, dev_word, post_word, pre_word};
use osv_prim::{Digits, split_digits};

// A part that may be absent, and what is left of the text.
#[derive(Clone, Copy)]
struct Found<'a> {
    digits: Option<&'a [u8]>,
    rest: &'a [u8],
}

#[derive(Clone, Copy)]
struct FoundPre<'a> {
    pre: Option<(PreWord, &'a [u8])>,
    rest: &'a [u8],
}

/// The parts of a version in its text: digits, and for the release digits and dots.
#[derive(Clone, Copy)]
pub struct Slices<'a> {
    pub epoch: &'a [u8],
    pub release: &'a [u8],
    pub pre: Option<(PreWord, &'a [u8])>,
    pub post: Option<&'a [u8]>,
    pub dev: Option<&'a [u8]>,
    pub local: &'a [u8],
}

#[tactic(auto, unfolding(crate::specs::Grammar::epoch_of, crate::specs::Grammar::behind_epoch))]
fn split_epoch(text: &[u8]) -> Digits<'_>
    ensures run { result.run.now ≡ epoch_of text.now }
    ensures numeric { all_digits result.run.now ≡ true }
    ensures rest { result.rest.now ≡ behind_epoch text.now }
{
    let digits = split_digits(text);
    if starts_with_digit(text) && starts_with(b'!', digits.rest) {
        return Digits {
            run: digits.run,
            rest: tail(digits.rest),
        };
    }
    Digits {
        run: b"",
        rest: text,
    }
}

fn split_release(text: &[u8]) -> Digits<'_>
    ensures run { result.run.now ≡ release_of text.now }
    ensures bytes { list_all is_release_byte result.run.now ≡ true }
    ensures rest { result.rest.now ≡ behind_release text.now }
{
    let rest = behind_release(text);
    Digits {
        run: &text[..text.len() - rest.len()],
        rest,
    }
}

#[tactic(auto, unfolding(crate::specs::Grammar::pre_of, crate::specs::Grammar::behind_pre))]
fn split_pre(text: &[u8]) -> FoundPre<'_>
    ensures pre { option_map (λ w. (w.0, w.1.now)) result.pre ≡ pre_of text.now }
    ensures numeric { IfSome result.pre (λ w. all_digits w.1.now ≡ true) }
    ensures rest { result.rest.now ≡ behind_pre text.now }
{
    match pre_word(behind_separator(text)) {
        None => FoundPre {
            pre: None,
            rest: text,
        },
        Some((word, behind)) => {
            let digits = split_digits(behind_separator(behind));
            FoundPre {
                pre: Some((word, digits.run)),
                rest: digits.rest,
            }
        }
    }
}

// The digits behind a word, where the word was found.
fn split_number<'a>(text: &'a [u8], behind: Option<&'a [u8]>) -> Found<'a>
    ensures digits { option_map (λ r. r.now) result.digits ≡ option_map number_behind (option_map (λ r. r.now) behind.entry) }
    ensures numeric { IfSome result.digits (λ r. all_digits r.now ≡ true) }
    ensures rest { result.rest.now ≡ option_map_or behind_number (option_map (λ r. r.now) behind.entry) text.now }
{
    match behind {
        None => Found {
            digits: None,
            rest: text,
        },
        Some(behind) => {
            let digits = split_digits(behind_separator(behind));
            Found {
                digits: Some(digits.run),
                rest: digits.rest,
            }
        }
    }
}

#[tactic(auto, unfolding(crate::specs::Grammar::post_of, crate::specs::Grammar::behind_post))]
fn split_post(text: &[u8]) -> Found<'_>
    ensures digits { option_map (λ r. r.now) result.digits ≡ post_of text.now }
    ensures numeric { IfSome result.digits (λ r. all_digits r.now ≡ true) }
    ensures rest { result.rest.now ≡ behind_post text.now }
{
    let after = tail(text);
    if starts_with(b'-', text) && starts_with_digit(after) {
        let digits = split_digits(after);
        return Found {
            digits: Some(digits.run),
            rest: digits.rest,
        };
    }
    split_number(text, post_word(behind_separator(text)))
}

#[tactic(auto, unfolding(crate::specs::Grammar::dev_of, crate::specs::Grammar::behind_dev))]
fn split_dev(text: &[u8]) -> Found<'_>
    ensures digits { option_map (λ r. r.now) result.digits ≡ dev_of text.now }
    ensures numeric { IfSome result.digits (λ r. all_digits r.now ≡ true) }
    ensures rest { result.rest.now ≡ behind_dev text.now }
{
    split_number(text, dev_word(behind_separator(text)))
}

#[tactic(auto, unfolding(crate::specs::Grammar::local_of, crate::specs::Grammar::behind_local))]
fn split_local(text: &[u8]) -> Digits<'_>
    ensures run { result.run.now ≡ local_of text.now }
    ensures rest { result.rest.now ≡ behind_local text.now }
{
    let after = tail(text);
    if starts_with(b'+', text) && starts_with_alphanumeric(after) {
        let rest = behind_segments(after);
        return Digits {
            run: &after[..after.len() - rest.len()],
            rest,
        };
    }
    Digits {
        run: b"",
        rest: text,
    }
}

/// The parts of the version that a text spells, if it spells one. It goes over the text once.
pub fn split(text: &[u8]) -> Option<Slices<'_>>
    ensures { MatchOption result (is_version text.now ≡ false) (λ s. (is_version text.now ≡ true) × (seen s ≡ parts text.now) × IsSpelled (parts text.now)) }
{
    let epoch = split_epoch(behind_v(trimmed(text)));
    let release = split_release(epoch.rest);
    let pre = split_pre(release.rest);
    let post = split_post(pre.rest);
    let dev = split_dev(post.rest);
    let local = split_local(dev.rest);
    if !starts_with_digit(epoch.rest) || !local.rest.is_empty() {
        return None;
    }
    Some(Slices {
        epoch: epoch.run,
        release: release.run,
        pre: pre.pre,
        post: post.digits,
        dev: dev.digits,
        local: local.run,
    })
}
