ghost use Rattle.std.specs.Prelude.{IfOk, option_map};
ghost use Rattle.snapshot.specs.Ranges.{IsKeysOf};

use osv_prim::Memory;
use range_hits::AskedVersion;
use std::alloc::Global;

/// A version as it reads in each order, where one is asked for. Only memory can fail.
pub(crate) fn read_version(
    alloc: Global,
    version: Option<&str>,
) -> Result<Option<AskedVersion>, Memory>
    ensures { IfOk result (λ keys. IsKeysOf keys (option_map (λ t. t.now) version.entry)) }
{
    match version {
        Some(text) => Ok(Some(AskedVersion::read(alloc, text)?)),
        None => Ok(None),
    }
}
