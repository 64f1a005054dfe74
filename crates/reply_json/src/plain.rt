ghost use Rattle.std.specs.Prelude.{◌≡◌, IfOk};
ghost use Rattle.reply_json.specs.Bodies.{building_body, commits_body, entry_body, published_body};

use osv_prim::Memory;
use std::alloc::Global;

/// The body for an import that was taken: its place in the history, from 0.
pub fn entry_body(alloc: Global, entry: u64) -> Result<Vec<u8>, Memory>
    ensures { IfOk result (λ b. b.items ≡ entry_body entry) }
{
    Ok(format!(in alloc; "{{\"entry\":{entry}}}")?.into_bytes())
}

/// The body for the commits of a repository that were taken: their place in the history, from 0, and
/// how many commits the repository has then.
pub fn commits_body(alloc: Global, entry: u64, commits: u64) -> Result<Vec<u8>, Memory>
    ensures { IfOk result (λ b. b.items ≡ commits_body entry commits) }
{
    Ok(format!(in alloc; "{{\"entry\":{entry},\"commits\":{commits}}}")?.into_bytes())
}

/// The body for a publication: the snapshot's number, from 0, and how many imports it is of.
pub fn published_body(alloc: Global, snapshot: u64, upto: u64) -> Result<Vec<u8>, Memory>
    ensures { IfOk result (λ b. b.items ≡ published_body snapshot upto) }
{
    let text = format!(in alloc;
        "{{\"state\":\"published\",\"snapshot\":{snapshot},\"upto\":{upto}}}"
    )?;
    Ok(text.into_bytes())
}

/// The body for a publication that goes on elsewhere: how many of its jobs are out, and how many
/// turns this request took.
pub fn building_body(alloc: Global, out: u64, took: u64) -> Result<Vec<u8>, Memory>
    ensures { IfOk result (λ b. b.items ≡ building_body out took) }
{
    let text = format!(in alloc; "{{\"state\":\"building\",\"out\":{out},\"took\":{took}}}")?;
    Ok(text.into_bytes())
}
