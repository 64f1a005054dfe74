ghost use Rattle.std.specs.Prelude.{◌≡◌, ◌≢◌, ◌∷◌, ◌++◌, ◌+◌, ℕ, List, [], Bool, false, true, Some, length, map, drop, flat_map, slice_get, option_map, MatchOption, IfOk, OnOk};
ghost use Rattle.std.specs.Arc.{arc_value};
ghost use Rattle.std.specs.List.{AllZip, AllByRecursion};
ghost use Rattle.osv_record.specs.Advisories.{Advisory, Extent, Entry};
ghost use Rattle.history.specs.declared.past.Past.{Past};
ghost use Rattle.history.specs.Prefixes.{records, graph};
ghost use Rattle.history.specs.Lookups.{has_import};
ghost use Rattle.history.specs.Pieces.{GitRange, repo_of, kind_of, ranges_from, ranges_of_entries, ranges_of, git_ranges_in};
ghost use Rattle.piece_work.specs.Sets.{IsSetOf};
ghost use Rattle.impact_job.specs.Tables.{StandsFor, IsTodoOf, AreSetsOf};
ghost use Rattle.impact_job.specs.Walks.{AreGraphsOf, IsBegun, AreOld, IsOld, Stays};

use crate::by_repo::Graphs;
use crate::counts::number_of;
use crate::split::split_at_id;
use crate::tables::{Tables, Todo, first_sets, without};
use commit_graph::Graph;
use history::PieceKind;
use impact_set::ImpactSet;
use osv_prim::{List, Memory, RepoKey};
use osv_record::{Range, Record};
use piece_work::Piece;
use std::alloc::Global;
use std::sync::Arc;

/// What is to be done for each GIT range of the advisories of a build, by advisory, entry and range: of the
/// base and of those that changed since. The entries of an advisory that did not change are read only where it has
/// sets and some repository has grown.
pub(crate) fn todo_of(
    alloc: Global,
    base: &Tables,
    changed: &[&Arc<Record>],
    graphs: &Graphs,
) -> Result<Vec<Todo>, Memory>
    ensures { (b p : List Past) → AreGraphsOf graphs.now b p → StandsFor base.now b
        → map (λ a. arc_value a.now) changed.now ≡ records (drop (length b) p)
        → IfOk result (λ v. AllZip (IsTodoOf b p) (git_ranges_in p) v.items) }
{
    let mut todo = Vec::new(alloc);
    let mut rest = base.records.as_slice();
    let mut sets = base.sets.as_slice();
    for record in changed {
        let parts = split_at_id(rest, record.id.as_str().as_bytes());
        let after = keep_each(&mut todo, parts.below, sets, graphs)?;
        put_record(&mut todo, record, &[], graphs)?;
        sets = without(after, parts.found);
        rest = parts.above;
    }
    keep_each(&mut todo, rest, sets, graphs)?;
    Ok(todo)
}

// What is to be done for advisories of the base that did not change, and the sets of later ones.
fn keep_each<'s>(
    todo: &mut Vec<Todo>,
    advisories: &[Arc<Record>],
    sets: &'s [List<Arc<ImpactSet>>],
    graphs: &Graphs,
) -> Result<&'s [List<Arc<ImpactSet>>], Memory>
    ensures { (b p : List Past) (more : List Advisory) (later : List GitRange) → AreGraphsOf graphs.now b p
        → AllByRecursion (λ r. has_import (drop (length b) p) r.id ≡ false) (map (λ a. arc_value a) advisories.now)
        → IsBegun b p todo.old.items (flat_map ranges_of (map (λ a. arc_value a) advisories.now) ++ later)
        → AllZip (AreSetsOf b) (map (λ a. arc_value a) advisories.now ++ more) sets.now
        → IfOk result (λ own. IsBegun b p todo.new.items later × AllZip (AreSetsOf b) more own.now) }
{
    let mut own = sets;
    for advisory in advisories {
        let (first, after) = first_sets(own);
        keep_one(todo, advisory, first, graphs)?;
        own = after;
    }
    Ok(own)
}

// One that has no set has no GIT range, and where no repository has grown all sets stay.
fn keep_one(
    todo: &mut Vec<Todo>,
    advisory: &Arc<Record>,
    sets: &[Arc<ImpactSet>],
    graphs: &Graphs,
) -> Result<(), Memory>
    ensures { (b p : List Past) (later : List GitRange) → AreGraphsOf graphs.now b p → has_import (drop (length b) p) (arc_value advisory.now).id ≡ false
        → IsBegun b p todo.old.items (ranges_of (arc_value advisory.now) ++ later) → AreSetsOf b (arc_value advisory.now) sets.now
        → OnOk result (IsBegun b p todo.new.items later) }
{
    if sets.is_empty() {
        return Ok(());
    }
    if graphs.is_quiet() {
        return carry_each(todo, sets);
    }
    put_record(todo, advisory, sets, graphs)
}

// Sets that stay.
fn carry_each(todo: &mut Vec<Todo>, sets: &[Arc<ImpactSet>]) -> Result<(), Memory>
    ensures { (b p : List Past) (xs later : List GitRange) → IsBegun b p todo.old.items (xs ++ later) → AllZip (Stays b p) xs (map (λ a. arc_value a) sets.now)
        → OnOk result (IsBegun b p todo.new.items later) }
{
    for set in sets {
        todo.push(Todo::Carried(Arc::try_clone(set)?))?;
    }
    Ok(())
}

// What is to be done for the GIT ranges of an advisory, which have these sets where it did not come anew.
fn put_record(
    todo: &mut Vec<Todo>,
    advisory: &Arc<Record>,
    sets: &[Arc<ImpactSet>],
    graphs: &Graphs,
) -> Result<(), Memory>
    ensures { (b p : List Past) (anew : Bool) (later : List GitRange) → AreGraphsOf graphs.now b p → has_import (drop (length b) p) (arc_value advisory.now).id ≡ anew
        → IsBegun b p todo.old.items (ranges_of (arc_value advisory.now) ++ later) → AreOld anew b (ranges_of (arc_value advisory.now)) (map (λ a. arc_value a) sets.now)
        → OnOk result (IsBegun b p todo.new.items later) }
{
    let mut own = sets;
    let mut entry = 0u32;
    for affected in advisory.affected.as_slice() {
        own = put_ranges(
            todo,
            advisory,
            entry,
            affected.ranges.as_slice(),
            own,
            graphs,
        )?;
        entry = next(entry)?;
    }
    Ok(())
}

// The same for those of an entry, and the sets of later ones.
fn put_ranges<'s>(
    todo: &mut Vec<Todo>,
    advisory: &Arc<Record>,
    entry: u32,
    ranges: &[Range],
    sets: &'s [Arc<ImpactSet>],
    graphs: &Graphs,
) -> Result<&'s [Arc<ImpactSet>], Memory>
    ensures { (b p : List Past) (anew : Bool) (more later : List GitRange) → AreGraphsOf graphs.now b p → has_import (drop (length b) p) (arc_value advisory.now).id ≡ anew
        → IsBegun b p todo.old.items (ranges_from (arc_value advisory.now) entry 0 ranges.now ++ later) → AreOld anew b (ranges_from (arc_value advisory.now) entry 0 ranges.now ++ more) (map (λ a. arc_value a) sets.now)
        → IfOk result (λ own. IsBegun b p todo.new.items later × AreOld anew b more (map (λ a. arc_value a) own.now)) }
{
    let mut own = sets;
    let mut index = 0u32;
    for range in ranges {
        own = put_range(todo, advisory, (entry, index), range, own, graphs)?;
        index = next(index)?;
    }
    Ok(own)
}

// The same for one range, which is passed over where it isn't a GIT range.
fn put_range<'s>(
    todo: &mut Vec<Todo>,
    advisory: &Arc<Record>,
    place: (u32, u32),
    range: &Range,
    sets: &'s [Arc<ImpactSet>],
    graphs: &Graphs,
) -> Result<&'s [Arc<ImpactSet>], Memory>
    ensures { (b p : List Past) (anew : Bool) (rest : List Extent) (more later : List GitRange) → AreGraphsOf graphs.now b p → has_import (drop (length b) p) (arc_value advisory.now).id ≡ anew
        → IsBegun b p todo.old.items (ranges_from (arc_value advisory.now) place.0 place.1 (range.now ∷ rest) ++ later)
        → AreOld anew b (ranges_from (arc_value advisory.now) place.0 place.1 (range.now ∷ rest) ++ more) (map (λ a. arc_value a) sets.now)
        → IfOk result (λ own. IsBegun b p todo.new.items (ranges_from (arc_value advisory.now) place.0 (place.1 + 1) rest ++ later)
        × AreOld anew b (ranges_from (arc_value advisory.now) place.0 (place.1 + 1) rest ++ more) (map (λ a. arc_value a) own.now)) }
{
    let Some(key) = &range.repo else {
        return Ok(sets);
    };
    let (old, later) = first_set(sets);
    let number = number_of(todo.len())?;
    let one = todo_for(number, advisory, place, key, old, graphs)?;
    todo.push(one)?;
    Ok(later)
}

fn first_set<'s>(sets: &'s [Arc<ImpactSet>]) -> (Option<&'s Arc<ImpactSet>>, &'s [Arc<ImpactSet>])
    ensures first { option_map (λ a. arc_value a.now) result.0 ≡ slice_get (map (λ a. arc_value a) sets.now) 0 }
    ensures later { map (λ a. arc_value a) result.1.now ≡ drop 1 (map (λ a. arc_value a) sets.now) }
{
    match sets.split_first() {
        None => (None, sets),
        Some((set, later)) => (Some(set), later),
    }
}

// No advisory has more.
fn next(index: u32) -> Result<u32, Memory>
    ensures { IfOk result (λ n. n ≡ index + 1) }
{
    match index.checked_add(1) {
        None => Err(Memory),
        Some(next) => Ok(next),
    }
}

// What is to be done for a GIT range, by its place in the advisory, the key of its repository, and the set
// that it had where the advisory did not come anew.
fn todo_for(
    number: u32,
    advisory: &Arc<Record>,
    place: (u32, u32),
    key: &RepoKey,
    old: Option<&Arc<ImpactSet>>,
    graphs: &Graphs,
) -> Result<Todo, Memory>
    ensures { (b p : List Past) (x : GitRange) → AreGraphsOf graphs.now b p → x.advisory ≡ arc_value advisory.now → x.entry ≡ place.0 → x.range ≡ place.1 → x.extent.repo ≡ Some key.now
        → slice_get (git_ranges_in p) number ≡ Some x → IsOld (has_import (drop (length b) p) x.advisory.id) b x (option_map (λ a. arc_value a.now) old.entry)
        → IfOk result (IsTodoOf b p x) }
{
    match old {
        None => {
            let whole = graphs.graph(key);
            as_piece(number, PieceKind::Fresh, advisory, place, whole, None)
        }
        Some(set) => todo_with(number, advisory, place, key, set, graphs),
    }
}

// The same where the advisory did not come anew.
fn todo_with(
    number: u32,
    advisory: &Arc<Record>,
    place: (u32, u32),
    key: &RepoKey,
    old: &Arc<ImpactSet>,
    graphs: &Graphs,
) -> Result<Todo, Memory>
    ensures { (b p : List Past) (x : GitRange) → AreGraphsOf graphs.now b p → x.advisory ≡ arc_value advisory.now → x.entry ≡ place.0 → x.range ≡ place.1 → x.extent.repo ≡ Some key.now
        → slice_get (git_ranges_in p) number ≡ Some x → has_import (drop (length b) p) x.advisory.id ≡ false → IsSetOf b x (arc_value old.now)
        → IfOk result (IsTodoOf b p x) }
{
    let set = Arc::try_clone(old)?;
    if graphs.has_grown(key) {
        let whole = graphs.graph(key);
        as_piece(number, PieceKind::Extend, advisory, place, whole, Some(set))
    } else {
        Ok(Todo::Carried(set))
    }
}

fn as_piece(
    number: u32,
    kind: PieceKind,
    advisory: &Arc<Record>,
    place: (u32, u32),
    whole: &Arc<Graph>,
    old: Option<Arc<ImpactSet>>,
) -> Result<Todo, Memory>
    ensures { (b p : List Past) (x : GitRange) → x.advisory ≡ arc_value advisory.now → x.entry ≡ place.0 → x.range ≡ place.1 → arc_value whole.now ≡ graph p (repo_of x)
        → slice_get (git_ranges_in p) number ≡ Some x → kind_of (drop (length b) p) x ≡ kind → (kind ≢ PieceKind.Fresh → MatchOption old ⊥ (λ set. IsSetOf b x (arc_value set))) → kind ≢ PieceKind.Carry
        → IfOk result (IsTodoOf b p x) }
{
    Ok(Todo::Piece(Piece {
        number,
        kind,
        advisory: Arc::try_clone(advisory)?,
        entry: place.0,
        range: place.1,
        graph: Arc::try_clone(whole)?,
        old,
    }))
}
