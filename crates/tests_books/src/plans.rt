use book_desk::{Desk, Pulled};
use desk_calls::{count_of, give_back_of, pull_of};
use history::PieceKind;
use impact_job::{Prefix, Todo, plan};
use osv_prim::Memory;
use snapshot::Job;
use std::alloc::Global;

// What is to be done for a GIT range: its piece by number, advisory, entry and range, or nothing.
fn put_todo(alloc: Global, todo: &Todo, text: &mut String) -> Result<(), Memory> {
    match todo {
        Todo::Carried(_) => text.push_str(" Carry")?,
        Todo::Piece(piece) => {
            let kind = match piece.kind {
                PieceKind::Fresh => "Fresh",
                PieceKind::Extend => "Extend",
                PieceKind::Carry => "Carry",
            };
            let (number, entry, range) = (piece.number, piece.entry, piece.range);
            let id = piece.advisory.id.as_str();
            let commits = piece.graph.len();
            let one = format!(in alloc; " {number}:{id}/{entry}/{range} {kind} of {commits}")?;
            text.push_str(one.as_str())?;
        }
    }
    Ok(())
}

fn shown(alloc: Global, prefix: &Prefix) -> Result<String, Memory> {
    let plan = plan(alloc, prefix)?;
    let upto = plan.upto();
    let mut text = format!(in alloc; "{upto} imports:")?;
    for todo in &plan.todo {
        put_todo(alloc, todo, &mut text)?;
    }
    Ok(text)
}

/// The plan of a snapshot of all imports: what it is to do for each GIT range. The job is given back.
pub fn planned<D: Desk>(alloc: Global, desk: &mut D) -> Result<String, Memory> {
    let _known = desk.point();
    let goal = count_of(desk);
    match pull_of(desk, goal)? {
        Pulled::Job(job) => {
            let text = match &job {
                Job::Plan { prefix, .. } => shown(alloc, prefix),
                Job::Piece { .. } => Ok(String::from_str(alloc, "a piece")?),
                Job::Assemble { .. } => Ok(String::from_str(alloc, "an assembly")?),
            };
            let _ = give_back_of(desk, job);
            text
        }
        _ => Ok(String::from_str(alloc, "no job")?),
    }
}
