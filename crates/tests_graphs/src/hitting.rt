use crate::rows::oid;
use commit_graph::Graph;
use evaluate::{git_hit, hits};
use osv_prim::{Ledger, Memory, PackageKey, RepoKey, Steps, Subject};
use osv_record::Record;
use std::alloc::Global;
use std::sync::Arc;

/// Whether the advisory in `LETTER JSON` hits the commit of that letter, and how many hits it gives, for
/// any package and for npm's `p`.
pub fn hits_of<L: Ledger>(
    alloc: Global,
    repos: &[(RepoKey, Arc<Graph>)],
    text: &str,
    steps: &mut Steps<L>,
) -> Result<String, Memory> {
    let (letter, json) = text.split_once(' ').unwrap_or((text, ""));
    let (Ok(commit), Ok(record)) = (oid(letter), Record::read(alloc, json.as_bytes())) else {
        return Ok(String::from_str(alloc, "not read")?);
    };
    let key = PackageKey::normal(alloc, "npm", "p")?;
    let any = git_hit(alloc, &record, repos, &commit, None, steps)?;
    let of_p = git_hit(alloc, &record, repos, &commit, Some(&key), steps)?;
    let mut records = Vec::new(alloc);
    records.push(Arc::new(alloc, record)?)?;
    let all = hits(
        alloc,
        records.as_slice(),
        repos,
        &Subject::Commit(commit),
        steps,
    )?
    .len();
    let in_p = hits(
        alloc,
        records.as_slice(),
        repos,
        &Subject::CommitIn(commit, key),
        steps,
    )?
    .len();
    Ok(format!(in alloc; "{any} {of_p} {all} {in_p}")?)
}
