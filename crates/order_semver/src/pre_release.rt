ghost use Rattle.std.specs.Prelude.{◌≡◌};
ghost use Rattle.order_semver.specs.Key.{pre_cmp, pre_release};

use osv_prim::identifiers_cmp;
use std::cmp::Ordering;

// A numeric identifier is below the others.
const NUMBERS_BELOW: bool = true;

/// Compares two pre-releases, in place; the empty text, which is none, is above the others (SemVer
/// 2.0.0, items 11.3 and 11.4).
pub fn pre_release_cmp(a: &[u8], b: &[u8]) -> Ordering
    ensures { result ≡ pre_cmp (pre_release a.now) (pre_release b.now) }
{
    match (a, b) {
        ([], []) => Ordering::Equal,
        ([], _) => Ordering::Greater,
        (_, []) => Ordering::Less,
        _ => identifiers_cmp(NUMBERS_BELOW, a, b),
    }
}
