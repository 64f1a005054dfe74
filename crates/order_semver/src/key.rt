ghost use Rattle.std.specs.Prelude.{◌≡◌, IfOk, Ok, Err, None, Some, refl, string_bytes, is_err};
ghost use Rattle.std.specs.Cmp.{eq_by_cmp_equiv, partial_equiv_from_equiv, partial_order_from_total};
ghost use Rattle.std.specs.Ordering.{as_partial_cmp};
ghost use Rattle.order_semver.specs.Key.{key_cmp, key_eq, pre_release};
ghost use Rattle.order_semver.specs.Laws.{key_total};
ghost use Rattle.order_semver.specs.Reading.{IsFault, key_of, reading};
ghost use Rattle.semver.specs.Identifiers.{parts_of};
ghost use Rattle.semver.specs.Parse.{version_parts};

use crate::pre_release::pre_release_cmp;
use crate::text::full_text;
use osv_prim::{ReadVersion, Text};
use semver::{Error, Version};
use std::alloc::{AllocError, Global};
use std::cmp::Ordering;
use std::marker::Model;

/// A semantic version as precedence sees it: three numbers and the text of the pre-release. Build
/// metadata is not kept. Comparisons take no memory.
#[derive(Debug, Drop)]
pub struct SemverKey {
    pre: Text,
    major: u64,
    minor: u64,
    patch: u64,
}

impl Model for SemverKey {
    ghost use Rattle.order_semver.specs.Key.{Key, pre_release};

    ghost Value = { Key };

    ghost view = { λ k. record { major = k.major; minor = k.minor; patch = k.patch; pre = pre_release k.pre } };
}

// What an error of `semver` says: want of memory, or a refusal.
fn fault(error: Error) -> ReadVersion
    ensures { IsFault error result }
{
    if error == Error::from(AllocError) {
        ReadVersion::Memory
    } else {
        ReadVersion::NotAVersion
    }
}

// A version that has its three numbers.
fn parse(alloc: Global, text: &str) -> Result<Version, ReadVersion>
    ensures version { IfOk result (λ v. version_parts text.now ≡ Ok (parts_of v)) }
    ensures refused { result ≡ Err ReadVersion.NotAVersion → key_of (version_parts text.now) ≡ None }
{
    match Version::parse(alloc, text) {
        Ok(version) => Ok(version),
        Err(error) => Err(fault(error)),
    }
}

/// The key of the version that a text spells (SemVer 2.0.0, items 2, 9 and 10). One leading `v` is
/// dropped, one or two missing numbers are 0, and each number fits 64 bits. It takes at most four
/// allocations.
pub fn read(alloc: Global, text: &str) -> Result<SemverKey, ReadVersion>
    ensures key { IfOk result (λ k. reading text.now ≡ Some k) }
    ensures refused { result ≡ Err ReadVersion.NotAVersion → reading text.now ≡ None }
{
    let full = full_text(alloc, text)?;
    let version = parse(alloc, full.as_str())?;
    Ok(SemverKey {
        pre: Text::copy_of(alloc, version.pre.as_str())?,
        major: version.major,
        minor: version.minor,
        patch: version.patch,
    })
}

impl PartialEq for SemverKey {
    ghost eq = { key_eq };

    ghost laws = { partial_equiv_from_equiv (eq_by_cmp_equiv key_total) };

    fn eq(&self, other: &SemverKey) -> bool {
        self.cmp(other).is_eq()
    }
}

impl Eq for SemverKey {
    ghost laws = { eq_by_cmp_equiv key_total };
}

impl PartialOrd for SemverKey {
    ghost partial_cmp = { as_partial_cmp key_cmp };

    ghost laws = { partial_order_from_total key_total };

    fn partial_cmp(&self, other: &SemverKey) -> Option<Ordering> {
        Some(self.cmp(other))
    }
}

/// Precedence (SemVer 2.0.0, item 11).
impl Ord for SemverKey {
    ghost cmp = { key_cmp };

    ghost total = { key_total };

    ghost matches_partial_cmp = { λ x y. refl };

    ghost matches_eq = { λ x y. refl };

    fn cmp(&self, other: &SemverKey) -> Ordering {
        self.major
            .cmp(&other.major)
            .then(self.minor.cmp(&other.minor))
            .then(self.patch.cmp(&other.patch))
            .then(pre_release_cmp(self.pre.as_bytes(), other.pre.as_bytes()))
    }
}
