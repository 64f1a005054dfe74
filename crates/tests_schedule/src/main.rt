//! Reads steps a line each, and at a line `play KEEP PAGE WEIGHT COMMITS` plays them over a new book of these settings and
//! prints what each answers. Other lines are printed as they are.
#![tactic(auto)]

mod answers;
mod handed;
mod reading;

ghost use Rattle.std.specs.Prelude.{◌≡◌, ◌≤◌};

use book::Book;
use osv_prim::{Ledger, Memory, Steps, Unkept};
use schedule::{Step, play};
use settings::{MAX_KEEP, MAX_WEIGHT, Settings};
use std::alloc::{AllocError, Global};
use std::io;
use std::sync::ledger::Blank;

fn no_memory(_refused: Memory) -> AllocError {
    AllocError
}

// `KEEP PAGE WEIGHT COMMITS`: the steps over a new book, and its entries then.
fn played<L: Ledger>(
    alloc: Global,
    list: &[Step],
    text: &str,
    steps: &mut Steps<L>,
) -> Result<String, Memory> {
    let (keep, rest) = reading::number(text);
    let (page, rest) = reading::number(rest);
    let (weight, rest) = reading::number(rest);
    let (commits, _) = reading::number(rest);
    let settings = Settings {
        keep: keep.clamp(1, MAX_KEEP as u64) as u32,
        page: page.clamp(1, 1_000_000) as u32,
        weight: weight.min(MAX_WEIGHT),
        commits: commits.min(1_000_000) as u32,
        ..Settings::default()
    };
    let mut book = Book::new(alloc, settings)?;
    let answers = play(alloc, &mut book, list, &settings, steps)?;
    let mut text = String::new(alloc);
    for answer in &answers {
        answers::put(alloc, answer, &mut text)?;
    }
    for entry in book.entries() {
        answers::put_entry(alloc, entry, &mut text)?;
    }
    Ok(text)
}

// A step joins the list; what is no step is answered.
fn taken<L: Ledger>(
    alloc: Global,
    list: &mut Vec<Step>,
    line: &str,
    steps: &mut Steps<L>,
) -> Result<Option<String>, Memory> {
    if let Some(step) = reading::step(alloc, line)? {
        list.push(step)?;
        return Ok(None);
    }
    match line.split_once(' ') {
        Some(("play", rest)) => {
            let text = played(alloc, list.as_slice(), rest, steps)?;
            list.clear();
            Ok(Some(text))
        }
        Some(("strange", json)) => {
            let answer = handed::by_another(alloc, json, steps)?;
            Ok(Some(format!(in alloc; "{answer}\n")?))
        }
        _ => Ok(Some(format!(in alloc; "{line}\n")?)),
    }
}

fn play_all<L: Ledger>(rt: &HostRuntime, blank: Blank) -> io::Result<()>
    requires name { blank.name ≡ L.name }
    requires parts { blank.parts ≡ L.parts }
    requires two { 2 ≤ blank.parts }
{
    let mut steps = Steps::<L>::start(rt, blank);
    let mut list = Vec::new(rt.alloc());
    for line in rt.lines(rt.alloc()) {
        let line = line?;
        let answer = taken(rt.alloc(), &mut list, line.as_str(), &mut steps).map_err(no_memory)?;
        if let Some(text) = answer {
            print!(rt; "{text}")?;
        }
    }
    Ok(())
}

fn main(rt: HostRuntime) -> io::Result<()> {
    play_all::<Unkept>(&rt, Blank::new(2))
}
