ghost use Rattle.std.specs.Prelude.{◌≡◌, ◌↔◌, true, refl, map, IfOk, Err, None, Some, option_map};
ghost use Rattle.std.specs.Cmp.{eq_by_cmp_equiv, partial_equiv_from_equiv, partial_order_from_total};
ghost use Rattle.std.specs.List.{list_all};
ghost use Rattle.std.specs.Ordering.{as_partial_cmp};
ghost use Rattle.osv_prim.specs.Digits.{all_digits, number};
ghost use Rattle.order_pypi.specs.Grammar.{spelled};
ghost use Rattle.order_pypi.specs.Key.{key_cmp, key_eq, key_of, local_weights, ranked_cmp, release_numbers, suffix_cmp};
ghost use Rattle.order_pypi.specs.Laws.{key_total};
ghost use Rattle.order_pypi.specs.Reading.{IsSpelled, is_release_byte, reading};
ghost use Rattle.order_pypi.specs.Slices.{seen};

use crate::compare::{local_cmp, ranked_cmp, release_cmp};
use crate::parts::{Slices, split};
use crate::scan::spelled;
use crate::word::PreWord;
use osv_prim::{Bytes, Memory, ReadVersion, digits_cmp};
use std::alloc::Global;
use std::cmp::Ordering;
use std::marker::Model;

/// A version as PEP 440 orders it: copies of the digits of its parts, and its local version in the normal
/// spelling. Comparisons take no memory.
#[derive(Debug, Drop)]
pub struct PypiKey {
    epoch: Bytes,
    release: Bytes,
    pre: Option<(PreWord, Bytes)>,
    post: Option<Bytes>,
    dev: Option<Bytes>,
    local: Bytes,
}

impl Model for PypiKey {
    ghost use Rattle.order_pypi.specs.Key.{Key, Parts, key_of};
    ghost use Rattle.order_pypi.specs.Reading.{IsSpelled};

    ghost Value = { Key };

    ghost view = { λ k. key_of (record { epoch = k.epoch; release = k.release; pre = k.pre; post = k.post; dev = k.dev; local = k.local }) };

    ghost invariant = { λ k. IsSpelled (record { epoch = k.epoch; release = k.release; pre = k.pre; post = k.post; dev = k.dev; local = k.local }) };
}

fn copied(alloc: Global, digits: Option<&[u8]>) -> Result<Option<Bytes>, Memory>
    ensures { IfOk result (λ o. o ≡ option_map (λ r. r.now) digits.entry) }
{
    match digits {
        None => Ok(None),
        Some(digits) => Ok(Some(Bytes::copy_of(alloc, digits)?)),
    }
}

fn copied_pre(
    alloc: Global,
    pre: Option<(PreWord, &[u8])>,
) -> Result<Option<(PreWord, Bytes)>, Memory>
    ensures { IfOk result (λ o. o ≡ option_map (λ w. (w.0, w.1.now)) pre.entry) }
{
    match pre {
        None => Ok(None),
        Some((word, digits)) => Ok(Some((word, Bytes::copy_of(alloc, digits)?))),
    }
}

fn copied_local(alloc: Global, segments: &[u8]) -> Result<Bytes, Memory>
    ensures { IfOk result (λ b. b ≡ map spelled segments.now) }
{
    let local = segments.iter().map(|byte| spelled(*byte)).collect(alloc)?;
    Ok(Bytes::from_vec(local))
}

fn owned(alloc: Global, slices: Slices<'_>) -> Result<PypiKey, Memory>
    requires { IsSpelled (seen slices) }
    ensures { IfOk result (λ k. k ≡ key_of (seen slices.entry)) }
{
    Ok(PypiKey {
        epoch: Bytes::copy_of(alloc, slices.epoch)?,
        release: Bytes::copy_of(alloc, slices.release)?,
        pre: copied_pre(alloc, slices.pre)?,
        post: copied(alloc, slices.post)?,
        dev: copied(alloc, slices.dev)?,
        local: copied_local(alloc, slices.local)?,
    })
}

/// The key of the version that a text spells, in any of the spellings of PEP 440, Appendix B: case,
/// separators, `v`, absent numbers and `-1` for a post-release. White space outside (space, tab, LF, VT,
/// FF, CR) is dropped. It goes over the text once, and takes an allocation for each part that is there.
pub fn read(alloc: Global, text: &str) -> Result<PypiKey, ReadVersion>
    ensures key { IfOk result (λ k. reading text.now ≡ Some k) }
    ensures refused { (result ≡ Err ReadVersion.NotAVersion) ↔ (reading text.now ≡ None) }
{
    match split(text.as_bytes()) {
        None => Err(ReadVersion::NotAVersion),
        Some(slices) => Ok(owned(alloc, slices)?),
    }
}

impl PypiKey {
    fn epoch(&self) -> &[u8]
        ensures value { number result.now ≡ self.now.epoch }
        ensures numeric { all_digits result.now ≡ true }
    {
        self.epoch.as_slice()
    }

    fn release(&self) -> &[u8]
        ensures value { release_numbers result.now ≡ self.now.release }
        ensures bytes { list_all is_release_byte result.now ≡ true }
    {
        self.release.as_slice()
    }

    // No pre-release is below each of them where a development release and no post-release stands, and
    // else above.
    fn pre_rank(&self) -> u8
        ensures { result ≡ self.now.pre.0 }
    {
        match &self.pre {
            Some((word, _)) => word.rank(),
            None if self.dev.is_some() && self.post.is_none() => 0,
            None => 4,
        }
    }

    fn pre_digits(&self) -> &[u8]
        ensures value { number result.now ≡ self.now.pre.1 }
        ensures numeric { all_digits result.now ≡ true }
    {
        match &self.pre {
            Some((_, digits)) => digits.as_slice(),
            None => b"",
        }
    }

    // No post-release is below each of them.
    fn post_rank(&self) -> u8
        ensures { result ≡ self.now.post.0 }
    {
        match &self.post {
            Some(_) => 1,
            None => 0,
        }
    }

    fn post_digits(&self) -> &[u8]
        ensures value { number result.now ≡ self.now.post.1 }
        ensures numeric { all_digits result.now ≡ true }
    {
        match &self.post {
            Some(digits) => digits.as_slice(),
            None => b"",
        }
    }

    // No development release is above each of them.
    fn dev_rank(&self) -> u8
        ensures { result ≡ self.now.dev.0 }
    {
        match &self.dev {
            Some(_) => 0,
            None => 1,
        }
    }

    fn dev_digits(&self) -> &[u8]
        ensures value { number result.now ≡ self.now.dev.1 }
        ensures numeric { all_digits result.now ≡ true }
    {
        match &self.dev {
            Some(digits) => digits.as_slice(),
            None => b"",
        }
    }

    fn local(&self) -> &[u8]
        ensures { local_weights result.now ≡ self.now.local }
    {
        self.local.as_slice()
    }

    fn pre_cmp(&self, other: &PypiKey) -> Ordering
        ensures { result ≡ ranked_cmp self.now.pre other.now.pre }
    {
        ranked_cmp(
            self.pre_rank(),
            self.pre_digits(),
            other.pre_rank(),
            other.pre_digits(),
        )
    }

    fn post_cmp(&self, other: &PypiKey) -> Ordering
        ensures { result ≡ ranked_cmp self.now.post other.now.post }
    {
        ranked_cmp(
            self.post_rank(),
            self.post_digits(),
            other.post_rank(),
            other.post_digits(),
        )
    }

    fn dev_cmp(&self, other: &PypiKey) -> Ordering
        ensures { result ≡ ranked_cmp self.now.dev other.now.dev }
    {
        ranked_cmp(
            self.dev_rank(),
            self.dev_digits(),
            other.dev_rank(),
            other.dev_digits(),
        )
    }

    // What stands behind the release.
    fn suffix_cmp(&self, other: &PypiKey) -> Ordering
        ensures { result ≡ suffix_cmp self.now other.now }
    {
        self.pre_cmp(other)
            .then(self.post_cmp(other))
            .then(self.dev_cmp(other))
            .then(local_cmp(self.local(), other.local()))
    }
}

impl PartialEq for PypiKey {
    ghost eq = { key_eq };

    ghost laws = { partial_equiv_from_equiv (eq_by_cmp_equiv key_total) };

    fn eq(&self, other: &PypiKey) -> bool {
        self.cmp(other).is_eq()
    }
}

impl Eq for PypiKey {
    ghost laws = { eq_by_cmp_equiv key_total };
}

impl PartialOrd for PypiKey {
    ghost partial_cmp = { as_partial_cmp key_cmp };

    ghost laws = { partial_order_from_total key_total };

    fn partial_cmp(&self, other: &PypiKey) -> Option<Ordering> {
        Some(self.cmp(other))
    }
}

/// By epoch, release, pre-release, post-release, development release and local version (PEP 440, "Summary
/// of permitted suffixes and relative ordering").
impl Ord for PypiKey {
    ghost cmp = { key_cmp };

    ghost total = { key_total };

    ghost matches_partial_cmp = { λ x y. refl };

    ghost matches_eq = { λ x y. refl };

    fn cmp(&self, other: &PypiKey) -> Ordering {
        digits_cmp(self.epoch(), other.epoch())
            .then(release_cmp(self.release(), other.release()))
            .then(self.suffix_cmp(other))
    }
}
