ghost use Rattle.std.specs.Prelude.{◌≡◌, IfOk, IfSome, None, Ok, Err};
ghost use Rattle.order_debian.specs.Reading as debian;
ghost use Rattle.order_pypi.specs.Reading as pypi;
ghost use Rattle.order_semver.specs.Reading as semver;

use order_debian::DebianKey;
use order_pypi::PypiKey;
use order_semver::SemverKey;
use osv_prim::{Memory, ReadVersion};
use std::alloc::Global;

/// The versions of one order.
pub(crate) trait Key: Ord + Drop + Sized {
    ghost use Rattle.std.specs.Prelude.{List, ℕ, Option};

    ghost reading: { List ℕ → Option Self };

    /// The version that a text spells, if it spells one. Only memory can fail.
    fn read(alloc: Global, text: &str) -> Result<Option<Self>, Memory>
        ensures { IfOk result (λ o. o ≡ reading text.now) };
}

impl Key for SemverKey {
    ghost reading = { semver.reading };

    fn read(alloc: Global, text: &str) -> Result<Option<SemverKey>, Memory> {
        told(order_semver::read(alloc, text))
    }
}

impl Key for PypiKey {
    ghost reading = { pypi.reading };

    fn read(alloc: Global, text: &str) -> Result<Option<PypiKey>, Memory> {
        told(order_pypi::read(alloc, text))
    }
}

impl Key for DebianKey {
    ghost reading = { debian.reading };

    fn read(alloc: Global, text: &str) -> Result<Option<DebianKey>, Memory> {
        told(order_debian::read(alloc, text))
    }
}

// What is no version is none.
fn told<K: Drop>(read: Result<K, ReadVersion>) -> Result<Option<K>, Memory>
    ensures some { IfOk result (λ o. IfSome o (λ key. read ≡ Ok key)) }
    ensures none { IfOk result (λ o. o ≡ None → read ≡ Err ReadVersion.NotAVersion) }
{
    match read {
        Ok(key) => Ok(Some(key)),
        Err(ReadVersion::NotAVersion) => Ok(None),
        Err(ReadVersion::Memory) => Err(Memory),
    }
}
