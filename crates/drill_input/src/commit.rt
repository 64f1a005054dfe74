ghost use Rattle.std.specs.Prelude.{◌≡◌, ◌<◌, ◌++◌, ◌∷◌, [], IfOk};
ghost use Rattle.drill_input.specs.Commits.{commit, commits, listed, other_parent, parents, second_parent};

use crate::draws::{Draws, id_of};
use osv_prim::{CommitRow, List, Memory, Oid};
use std::alloc::Global;

// One of the first `number` commits, unless it is the first parent.
fn other_parent(draws: &mut Draws, number: u32, first: u32) -> Option<Oid>
    requires { 0 < number }
    ensures { (result, draws.new) ≡ other_parent number first draws.old }
{
    let other = draws.below(number);
    if other == first {
        None
    } else {
        Some(id_of(other))
    }
}

// One commit in four is a merge.
#[tactic(auto, unfolding(crate::specs::Commits::second_parent))]
fn second_parent(draws: &mut Draws, number: u32, first: u32) -> Option<Oid>
    requires { 0 < number }
    ensures { (result, draws.new) ≡ second_parent number first draws.old }
{
    match draws.below(4) {
        0 => other_parent(draws, number, first),
        _ => None,
    }
}

fn one_or_two(alloc: Global, first: Oid, second: Option<Oid>) -> Result<List<Oid>, Memory>
    ensures { IfOk result (λ l. l ≡ first ∷ listed second) }
{
    let mut parents = List::with_capacity(alloc, 2)?;
    parents.push(first)?;
    match second {
        Some(second) => {
            parents.push(second)?;
            Ok(parents)
        }
        None => Ok(parents),
    }
}

// The parents are earlier commits. The first commit has none, and the second one.
fn parents(alloc: Global, draws: &mut Draws, number: u32) -> Result<List<Oid>, Memory>
    ensures { IfOk result (λ l. (l, draws.new) ≡ parents number draws.old) }
{
    if number == 0 {
        return Ok(List::new(alloc));
    }
    let first = draws.below(number);
    if number == 1 {
        return one_or_two(alloc, id_of(first), None);
    }
    let second = second_parent(draws, number, first);
    one_or_two(alloc, id_of(first), second)
}

fn commit(alloc: Global, draws: &mut Draws, number: u32) -> Result<CommitRow, Memory>
    ensures { IfOk result (λ row. (row, draws.new) ≡ commit number draws.old) }
{
    let parents = parents(alloc, draws, number)?;
    Ok(CommitRow {
        oid: id_of(number),
        parents,
    })
}

/// The first `count` commits of a drill, each behind its parents. Only memory can fail.
pub fn commits(alloc: Global, draws: &mut Draws, count: u32) -> Result<Vec<CommitRow>, Memory>
    ensures { IfOk result (λ rows. (rows.items, draws.new) ≡ commits count draws.old) }
{
    let mut rows = Vec::with_capacity(alloc, count as usize)?;
    for number in 0..count {
        rows.push(commit(alloc, draws, number)?)?;
    }
    Ok(rows)
}
