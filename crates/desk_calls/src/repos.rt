// What a desk knows of repositories, and how they grow.

ghost use Rattle.std.specs.Arc.{arc_value};
ghost use Rattle.history.specs.Conditions.{IsOfVersion};
ghost use Rattle.desk_calls.specs.Growing.{GrownIs, RepoIs};

use book_desk::{Desk, GrowFault};
use commit_graph::Graph;
use osv_prim::{Memory, RepoKey};
use std::sync::Arc;

/// How many Grows a repository has, and its graph.
pub fn repo_of<D: Desk>(desk: &mut D, key: &RepoKey) -> Result<(u64, Arc<Graph>), Memory>
    ensures { RepoIs (λ a. arc_value a) (D.caller desk.old) key.now result (D.caller desk.new) }
{
    desk.repo(key)
}

/// Makes a graph the one of a repository, by an entry with the rows that the repository lacked, and gives
/// the place of that. The graph was made over the first `version` Grows.
pub fn grow_of<D: Desk>(
    desk: &mut D,
    key: RepoKey,
    version: u64,
    graph: Arc<Graph>,
) -> Result<u64, GrowFault>
    requires { IsOfVersion key version (arc_value graph) (D.caller desk.old).front }
    ensures { GrownIs (D.caller desk.old) key version (arc_value graph) result (D.caller desk.new) }
{
    desk.grow(key, version, graph)
}
