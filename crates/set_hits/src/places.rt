ghost use Rattle.std.specs.Prelude.{◌≡◌, map, IfOk, OnOk};
ghost use Rattle.std.specs.Arc.{arc_value};
ghost use Rattle.set_hits.specs.Places.{places_of, number_in, with_place};

use commit_graph::Graph;
use osv_prim::{Memory, Oid, RepoKey};
use std::alloc::Global;
use std::sync::Arc;

/// The repositories that have a commit, by their keys, in their order, and its number in the graph of
/// each. It takes one look-up for each repository, and no step through a graph. Only memory can fail.
pub fn places_of<'a>(
    alloc: Global,
    repos: &'a [(RepoKey, Arc<Graph>)],
    commit: &Oid,
) -> Result<Vec<(&'a RepoKey, u32)>, Memory>
    ensures { IfOk result (λ v. map (λ x. (x.0.now, x.1)) v.items ≡ places_of (map (λ g. (g.0, arc_value g.1)) repos.now) commit.now) }
{
    let mut places = Vec::new(alloc);
    for (key, graph) in repos {
        put(&mut places, key, graph.number_of(commit))?;
    }
    Ok(places)
}

fn put<'a>(
    places: &mut Vec<(&'a RepoKey, u32)>,
    key: &'a RepoKey,
    number: Option<u32>,
) -> Result<(), Memory>
    ensures { OnOk result (map (λ x. (x.0.now, x.1)) places.new.items ≡ with_place (map (λ x. (x.0.now, x.1)) places.old.items) key.now number) }
{
    if let Some(number) = number {
        places.push((key, number))?;
    }
    Ok(())
}

/// The number of the commit in the graph of a repository.
pub(crate) fn number_in(places: &[(&RepoKey, u32)], key: &RepoKey) -> Option<u32>
    ensures { result ≡ number_in (map (λ x. (x.0.now, x.1)) places.now) key.now }
{
    let mut rest = places;
    while let [place, after @ ..] = rest {
        if *place.0 == *key {
            return Some(place.1);
        }
        rest = after;
    }
    None
}
