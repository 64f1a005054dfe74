ghost use Rattle.std.specs.Prelude.{◌≡◌, [], ◌∷◌, IfOk, Some, refl, nat_eq};
ghost use Rattle.std.specs.Ordering.{nat_cmp};
ghost use Rattle.std.specs.Cmp.{partial_equiv_from_equiv};
ghost use Rattle.std.specs.Cmp.Lexicographic.{slice_cmp, pointwise, nat_list_cmp_total, nat_list_eq_equiv, texts_ties, texts_po};
ghost use Rattle.std.proofs.Common.{rules};
ghost use Rattle.std.specs.Cmp.Rules.{hashing};
ghost use Rattle.osv_prim.specs.Repos.{normal_repo, without_end};

use crate::memory::Memory;
use crate::text::Text;
use std::alloc::Global;
use std::cmp::Ordering;
use std::hash::{Hash, Hasher};
use std::marker::Model;

/// The key of a repository: its URL without one final `/`, and then without one final `.git`, as
/// `https://example.org/r` of `https://example.org/r.git/`. Contracts see it as the list of its bytes.
/// A key is made normal once: that of the URL `u//` is `u/`, and that of the URL `u/` is `u`.
#[derive(Debug, Drop)]
pub struct RepoKey {
    text: Text,
}

impl Model for RepoKey {
    ghost use Rattle.std.specs.Prelude.{List, ℕ};

    ghost Value = { List ℕ };

    ghost view = { λ r. r.text };
}

impl RepoKey {
    /// The key of the repository at a URL, in one allocation. Only memory can fail.
    pub fn normal(alloc: Global, url: &str) -> Result<RepoKey, Memory>
        ensures { IfOk result (λ r. r ≡ normal_repo url.now) }
    {
        Ok(RepoKey {
            text: Text::copy_of(alloc, without_end(without_end(url, "/"), ".git"))?,
        })
    }

    /// The key whose text this is, which is not made normal again: as a key was written by `as_str`, so
    /// it is read back. Each text is the key of some URL. Only memory can fail.
    pub fn from_key(alloc: Global, key: &str) -> Result<RepoKey, Memory>
        ensures { IfOk result (λ r. r ≡ key.now) }
    {
        Ok(RepoKey {
            text: Text::copy_of(alloc, key)?,
        })
    }

    /// A copy of the key. Only memory can fail.
    pub fn copy(&self, alloc: Global) -> Result<RepoKey, Memory>
        ensures { IfOk result (λ r. r ≡ self.now) }
    {
        RepoKey::from_key(alloc, self.as_str())
    }

    /// The text of the key.
    pub fn as_str(&self) -> &str
        ensures { result.now ≡ self.now }
    {
        self.text.as_str()
    }
}

// The text without this end, where it has it.
fn without_end<'a>(text: &'a str, end: &str) -> &'a str
    ensures { result.now ≡ without_end end.now text.now }
{
    match text.strip_suffix(end) {
        Some(front) => front,
        None => text,
    }
}

impl PartialEq for RepoKey {
    ghost eq = { pointwise nat_eq };

    ghost laws = { partial_equiv_from_equiv nat_list_eq_equiv };

    fn eq(&self, other: &RepoKey) -> bool {
        self.as_str() == other.as_str()
    }
}

impl Eq for RepoKey {
    ghost laws = { nat_list_eq_equiv };
}

impl PartialOrd for RepoKey {
    ghost partial_cmp = { λ x y. Some (slice_cmp nat_cmp x y) };

    ghost laws = { texts_po };

    fn partial_cmp(&self, other: &RepoKey) -> Option<Ordering> {
        Some(self.cmp(other))
    }
}

impl Ord for RepoKey {
    ghost cmp = { slice_cmp nat_cmp };

    ghost total = { nat_list_cmp_total };

    ghost matches_partial_cmp = { λ x y. refl };

    ghost matches_eq = { texts_ties };

    fn cmp(&self, other: &RepoKey) -> Ordering {
        self.as_str().cmp(other.as_str())
    }
}

impl Hash for RepoKey {
    ghost hash_input = { λ r. r ∷ [] };

    ghost respects_eq = { Prim.search (hashing, rules) };

    fn hash<H: Hasher>(&self, state: &mut H) {
        state.write(self.as_str().as_bytes());
    }
}
