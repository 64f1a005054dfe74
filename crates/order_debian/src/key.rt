ghost use Rattle.std.specs.Prelude.{◌≡◌, true, refl, Some, None, Err, IfOk, ◌↔◌};
ghost use Rattle.std.specs.Cmp.{eq_by_cmp_equiv, partial_equiv_from_equiv, partial_order_from_total};
ghost use Rattle.std.specs.Ordering.{as_partial_cmp};
ghost use Rattle.osv_prim.specs.Digits.{all_digits, number};
ghost use Rattle.order_debian.specs.Key.{key_cmp, key_eq};
ghost use Rattle.order_debian.specs.Laws.{key_total};
ghost use Rattle.order_debian.specs.Reading.{reading};
ghost use Rattle.order_debian.specs.Turns.{weights};

use crate::part::part_cmp;
use crate::places::{
    after_epoch, epoch_of, first_colon, is_cut, last_dash, revision_of, upstream_of,
};
use osv_prim::{ReadVersion, Text, digits_cmp};
use std::alloc::Global;
use std::cmp::Ordering;
use std::marker::Model;

/// A version as Debian orders it: a copy of its text and the places at which it is cut. Comparisons
/// take no memory.
#[derive(Debug, Drop)]
pub struct DebianKey {
    text: Text,
    colon: Option<usize>,
    dash: Option<usize>,
}

impl Model for DebianKey {
    ghost use Rattle.order_debian.specs.Key.{Key};

    ghost Value = { Key };

    ghost use Rattle.order_debian.specs.Reading.{key_at, IsPlaced};

    ghost view = { λ k. key_at k.colon k.dash k.text };

    ghost invariant = { λ k. IsPlaced k.colon k.dash k.text };
}

/// The key of the version that a text spells, `[epoch:]upstream[-revision]` (Debian Policy, 5.6.12). It
/// takes one allocation, of the text's length. White space outside isn't dropped.
pub fn read(alloc: Global, text: &str) -> Result<DebianKey, ReadVersion>
    ensures key { IfOk result (λ k. reading text.now ≡ Some k) }
    ensures refused { (result ≡ Err ReadVersion.NotAVersion) ↔ (reading text.now ≡ None) }
{
    let bytes = text.as_bytes();
    let colon = first_colon(bytes);
    let dash = last_dash(after_epoch(colon, bytes));
    if !is_cut(colon, dash, bytes) {
        return Err(ReadVersion::NotAVersion);
    }
    let text = Text::copy_of(alloc, text)?;
    Ok(DebianKey { text, colon, dash })
}

impl DebianKey {
    // The digits of the epoch.
    fn epoch(&self) -> &[u8]
        ensures value { number result.now ≡ self.now.epoch }
        ensures numeric { all_digits result.now ≡ true }
    {
        epoch_of(self.colon, self.text.as_bytes())
    }

    fn upstream(&self) -> &[u8]
        ensures { weights result.now ≡ self.now.upstream }
    {
        upstream_of(self.dash, after_epoch(self.colon, self.text.as_bytes()))
    }

    fn revision(&self) -> &[u8]
        ensures { weights result.now ≡ self.now.revision }
    {
        revision_of(self.dash, after_epoch(self.colon, self.text.as_bytes()))
    }
}

impl PartialEq for DebianKey {
    ghost eq = { key_eq };

    ghost laws = { partial_equiv_from_equiv (eq_by_cmp_equiv key_total) };

    fn eq(&self, other: &DebianKey) -> bool {
        self.cmp(other).is_eq()
    }
}

impl Eq for DebianKey {
    ghost laws = { eq_by_cmp_equiv key_total };
}

impl PartialOrd for DebianKey {
    ghost partial_cmp = { as_partial_cmp key_cmp };

    ghost laws = { partial_order_from_total key_total };

    fn partial_cmp(&self, other: &DebianKey) -> Option<Ordering> {
        Some(self.cmp(other))
    }
}

/// By epoch, then by upstream version, then by revision (Debian Policy, 5.6.12).
impl Ord for DebianKey {
    ghost cmp = { key_cmp };

    ghost total = { key_total };

    ghost matches_partial_cmp = { λ x y. refl };

    ghost matches_eq = { λ x y. refl };

    fn cmp(&self, other: &DebianKey) -> Ordering {
        digits_cmp(self.epoch(), other.epoch())
            .then(part_cmp(self.upstream(), other.upstream()))
            .then(part_cmp(self.revision(), other.revision()))
    }
}
