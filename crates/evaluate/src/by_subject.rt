ghost use Rattle.std.specs.Prelude.{◌≡◌, ◌+◌, ◌*◌, ◌≤◌, IfOk, map};
ghost use Rattle.std.specs.Arc.{arc_value};
ghost use Rattle.evaluate.specs.Hits.{is_hit, affects_subject};
ghost use Rattle.evaluate.specs.Rows.{subject_rows};

use crate::by_commit::git_hit;
use crate::by_version::version_hit;
use commit_graph::Graph;
use osv_prim::{Ledger, Memory, RepoKey, Steps, Subject};
use osv_record::Record;
use std::alloc::Global;
use std::sync::Arc;

/// Whether an advisory hits what is asked: it isn't withdrawn, and affects it (OSV schema 1.6, "Evaluation"
/// and "withdrawn"). It takes at most two graph steps for each row of the graph of each GIT range in entries
/// of the asked package, and none where no commit is asked for. Only want of memory is refused.
pub fn is_hit<L: Ledger>(
    alloc: Global,
    advisory: &Record,
    repos: &[(RepoKey, Arc<Graph>)],
    subject: &Subject,
    steps: &mut Steps<L>,
) -> Result<bool, Memory>
    ensures hit { IfOk result (λ b. b ≡ is_hit (map (λ g. (g.0, arc_value g.1)) repos.now) subject.now advisory.now) }
    ensures steps { steps.new.graph ≤ steps.old.graph + 2 * subject_rows (map (λ g. (g.0, arc_value g.1)) repos.now) subject.now advisory.now }
    ensures records { steps.new.record_count ≡ steps.old.record_count }
{
    if advisory.withdrawn {
        return Ok(false);
    }
    affects_subject(alloc, advisory, repos, subject, steps)
}

fn affects_subject<L: Ledger>(
    alloc: Global,
    advisory: &Record,
    repos: &[(RepoKey, Arc<Graph>)],
    subject: &Subject,
    steps: &mut Steps<L>,
) -> Result<bool, Memory>
    ensures affected { IfOk result (λ b. b ≡ affects_subject (map (λ g. (g.0, arc_value g.1)) repos.now) subject.now advisory.now) }
    ensures steps { steps.new.graph ≤ steps.old.graph + 2 * subject_rows (map (λ g. (g.0, arc_value g.1)) repos.now) subject.now advisory.now }
    ensures records { steps.new.record_count ≡ steps.old.record_count }
{
    match subject {
        Subject::Package(asked, Some(version)) => {
            version_hit(alloc, advisory, asked, Some(version.as_str()))
        }
        Subject::Package(asked, None) => version_hit(alloc, advisory, asked, None),
        Subject::Commit(commit) => git_hit(alloc, advisory, repos, commit, None, steps),
        Subject::CommitIn(commit, asked) => {
            git_hit(alloc, advisory, repos, commit, Some(asked), steps)
        }
    }
}
