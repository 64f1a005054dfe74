ghost use Rattle.std.specs.Prelude.{IfOk};
ghost use Rattle.range_hits.specs.Forms.{IsReadOf};

use crate::key::Key;
use order_debian::DebianKey;
use order_pypi::PypiKey;
use order_semver::SemverKey;
use osv_prim::Memory;
use std::alloc::Global;

/// A version that is asked for, as it reads in each order, if it does.
#[derive(Debug, Drop)]
pub struct AskedVersion {
    pub(crate) semver: Option<SemverKey>,
    pub(crate) pypi: Option<PypiKey>,
    pub(crate) debian: Option<DebianKey>,
}

impl AskedVersion {
    /// The version that a text spells, read once in each order. Only memory can fail.
    pub fn read(alloc: Global, text: &str) -> Result<AskedVersion, Memory>
        ensures { IfOk result (λ keys. IsReadOf keys text.now) }
    {
        Ok(AskedVersion {
            semver: SemverKey::read(alloc, text)?,
            pypi: PypiKey::read(alloc, text)?,
            debian: DebianKey::read(alloc, text)?,
        })
    }
}
