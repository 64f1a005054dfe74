//! Reads a call a line and prints what it answers, for graphs of commits and what hits them.
#![tactic(auto)]

mod hitting;
mod rows;

ghost use Rattle.std.specs.Prelude.{◌≡◌, ◌≤◌};

use commit_graph::Graph;
use osv_prim::{Ledger, Memory, RepoKey, Steps, Unkept};
use std::alloc::{AllocError, Global};
use std::io;
use std::sync::Arc;
use std::sync::ledger::Blank;

const URL: &str = "https://e.example/r";

fn no_memory(_refused: Memory) -> AllocError {
    AllocError
}

// The empty graph of the repository.
fn empty(alloc: Global) -> Result<Vec<(RepoKey, Arc<Graph>)>, Memory> {
    let mut repos = Vec::new(alloc);
    let graph = Arc::new(alloc, Graph::empty(alloc)?)?;
    repos.push((RepoKey::normal(alloc, URL)?, graph))?;
    Ok(repos)
}

fn answer<L: Ledger>(
    alloc: Global,
    line: &str,
    repos: &mut Vec<(RepoKey, Arc<Graph>)>,
    steps: &mut Steps<L>,
) -> Result<String, Memory> {
    let (call, rest) = line.split_once(' ').unwrap_or((line, ""));
    let Some(repo) = repos.first() else {
        return Err(Memory);
    };
    let graph = Arc::try_clone(&repo.1)?;
    match call {
        "empty" => {
            *repos = empty(alloc)?;
            Ok(String::from_str(alloc, "empty")?)
        }
        "extend" => match rows::extended(alloc, &graph, rest, steps)? {
            Ok(larger) => {
                let text = rows::size(alloc, &larger)?;
                let mut next = Vec::new(alloc);
                next.push((RepoKey::normal(alloc, URL)?, Arc::new(alloc, larger)?))?;
                *repos = next;
                Ok(text)
            }
            Err(text) => Ok(text),
        },
        "row" => rows::row(alloc, &graph, rest, steps),
        "hits" => hitting::hits_of(alloc, repos.as_slice(), rest, steps),
        _ => Ok(String::from_str(alloc, line)?),
    }
}

fn answer_all<L: Ledger>(rt: &HostRuntime, blank: Blank) -> io::Result<()>
    requires name { blank.name ≡ L.name }
    requires parts { blank.parts ≡ L.parts }
    requires two { 2 ≤ blank.parts }
{
    let mut steps = Steps::<L>::start(rt, blank);
    let mut repos = empty(rt.alloc()).map_err(no_memory)?;
    for line in rt.lines(rt.alloc()) {
        let line = line?;
        let text = answer(rt.alloc(), line.as_str(), &mut repos, &mut steps).map_err(no_memory)?;
        println!(rt; "{text}")?;
    }
    Ok(())
}

fn main(rt: HostRuntime) -> io::Result<()> {
    answer_all::<Unkept>(&rt, Blank::new(2))
}
