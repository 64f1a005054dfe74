//! Texts put behind others in one buffer.

ghost use Rattle.std.specs.Prelude.{◌≡◌, ◌++◌, OnOk};

use osv_prim::Memory;

pub(crate) fn push(out: &mut Vec<u8>, text: &[u8]) -> Result<(), Memory>
    ensures { OnOk result (out.new.items ≡ out.old.items ++ text.now) }
{
    out.extend_from_slice(text)?;
    Ok(())
}
