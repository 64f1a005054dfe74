ghost use Rattle.std.specs.Prelude.{◌≡◌, option_map};
ghost use Rattle.order_pypi.specs.Grammar.{behind_alpha, behind_beta, behind_candidate, dev_word, first_of_two, post_word, pre_word};
ghost use Rattle.order_pypi.specs.Key.{word_rank};

use crate::scan::behind_word;

/// What kind a pre-release is of. Kinds are ordered as they stand here.
#[derive(Clone, Copy, Debug, PartialEq, Eq)]
pub enum PreWord {
    Alpha,
    Beta,
    Candidate,
}

impl PreWord {
    pub fn rank(self) -> u8
        ensures { result ≡ word_rank self }
    {
        match self {
            PreWord::Alpha => 1,
            PreWord::Beta => 2,
            PreWord::Candidate => 3,
        }
    }
}

// The first of two places, where there is one.
fn first_of_two<'a>(one: Option<&'a [u8]>, other: Option<&'a [u8]>) -> Option<&'a [u8]>
    ensures { option_map (λ r. r.now) result ≡ first_of_two (option_map (λ r. r.now) one.entry) (option_map (λ r. r.now) other.entry) }
{
    match one {
        Some(rest) => Some(rest),
        None => other,
    }
}

#[tactic(auto, unfolding(crate::specs::Grammar::behind_alpha))]
fn behind_alpha(text: &[u8]) -> Option<&[u8]>
    ensures { option_map (λ r. r.now) result ≡ behind_alpha text.now }
{
    first_of_two(behind_word(b"alpha", text), behind_word(b"a", text))
}

#[tactic(auto, unfolding(crate::specs::Grammar::behind_beta))]
fn behind_beta(text: &[u8]) -> Option<&[u8]>
    ensures { option_map (λ r. r.now) result ≡ behind_beta text.now }
{
    first_of_two(behind_word(b"beta", text), behind_word(b"b", text))
}

#[tactic(auto, unfolding(crate::specs::Grammar::behind_candidate))]
fn behind_candidate(text: &[u8]) -> Option<&[u8]>
    ensures { option_map (λ r. r.now) result ≡ behind_candidate text.now }
{
    let short = first_of_two(behind_word(b"rc", text), behind_word(b"c", text));
    let long = first_of_two(behind_word(b"preview", text), behind_word(b"pre", text));
    first_of_two(short, long)
}

/// The kind of a pre-release whose word begins the text, and what stands behind the word.
#[tactic(auto, unfolding(crate::specs::Grammar::pre_word))]
pub fn pre_word(text: &[u8]) -> Option<(PreWord, &[u8])>
    ensures { option_map (λ w. (w.0, w.1.now)) result ≡ pre_word text.now }
{
    if let Some(rest) = behind_alpha(text) {
        return Some((PreWord::Alpha, rest));
    }
    if let Some(rest) = behind_beta(text) {
        return Some((PreWord::Beta, rest));
    }
    match behind_candidate(text) {
        Some(rest) => Some((PreWord::Candidate, rest)),
        None => None,
    }
}

/// What stands behind a word for a post-release.
#[tactic(auto, unfolding(crate::specs::Grammar::post_word))]
pub fn post_word(text: &[u8]) -> Option<&[u8]>
    ensures { option_map (λ r. r.now) result ≡ post_word text.now }
{
    let short = first_of_two(behind_word(b"rev", text), behind_word(b"r", text));
    first_of_two(behind_word(b"post", text), short)
}

/// What stands behind the word for a development release.
#[tactic(auto, unfolding(crate::specs::Grammar::dev_word))]
pub fn dev_word(text: &[u8]) -> Option<&[u8]>
    ensures { option_map (λ r. r.now) result ≡ dev_word text.now }
{
    behind_word(b"dev", text)
}
