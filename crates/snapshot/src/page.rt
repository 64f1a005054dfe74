ghost use Rattle.std.specs.Prelude.{◌≡◌, IfOk};
ghost use Rattle.snapshot.specs.Pages.{found_seen, page_seen};

use osv_prim::Memory;
use osv_record::Record;
use std::alloc::Global;
use std::sync::Arc;

/// A page of hits, ascending by id.
#[derive(Drop)]
pub struct Page {
    pub found: Vec<Arc<Record>>,
    /// Whether there are more hits above them.
    pub more: bool,
}

/// A page of hits as they stand in a snapshot, ascending by id.
#[derive(Drop)]
pub struct Found<'a> {
    pub hits: Vec<&'a Arc<Record>>,
    /// Whether there are more hits above them.
    pub more: bool,
}

/// The same page, which outlives the snapshot. Only memory can fail.
pub(crate) fn shared(alloc: Global, found: &Found) -> Result<Page, Memory>
    ensures { IfOk result (λ page. page_seen page ≡ found_seen found.now) }
{
    let mut hits = Vec::with_capacity(alloc, found.hits.len())?;
    for advisory in found.hits.as_slice() {
        hits.push(Arc::try_clone(advisory)?)?;
    }
    Ok(Page {
        found: hits,
        more: found.more,
    })
}
