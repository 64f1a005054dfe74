//! Reads a call a line and prints what it answers, for a caller alone with a book of two snapshots and 810
//! bytes, whose pages are larger than a service's; the line `large` goes on with a new book of 1,000,000 bytes.
#![tactic(auto)]

mod graphs;
mod jobs;
mod plans;
mod shown;

ghost use Rattle.std.specs.Prelude.{◌≡◌, ◌≤◌};

use book_desk::{Desk, ImportFault};
use desks::OwnDesk;
use osv_prim::{Ledger, Memory, Steps, Unkept};
use osv_record::Record;
use settings::Settings;
use std::alloc::{AllocError, Global};
use std::io;
use std::sync::Arc;
use std::sync::ledger::Blank;

fn no_memory(_refused: Memory) -> AllocError {
    AllocError
}

fn import<D: Desk>(alloc: Global, desk: &mut D, json: &str) -> Result<String, Memory> {
    let Ok(advisory) = Record::read(alloc, json.as_bytes()) else {
        return Ok(String::from_str(alloc, "not read")?);
    };
    match desk.import(Arc::new(alloc, advisory)?) {
        Ok(place) => Ok(format!(in alloc; "entry {place}")?),
        Err(ImportFault::JournalFull { used, limit }) => {
            Ok(format!(in alloc; "{used} of {limit} used")?)
        }
        Err(ImportFault::Memory) => Err(Memory),
    }
}

fn answer<D: Desk, L: Ledger>(
    alloc: Global,
    desk: &mut D,
    line: &str,
    steps: &mut Steps<L>,
) -> Result<String, Memory> {
    let (call, rest) = line.split_once(' ').unwrap_or((line, ""));
    match call {
        "import" => import(alloc, desk, rest),
        "repo" => graphs::shown(alloc, desk, rest),
        "grow" => graphs::grown(alloc, desk, rest, steps),
        "anew" => graphs::made_anew(alloc, desk, rest, steps),
        "pull" => jobs::pulled(alloc, desk),
        "plan" => plans::planned(alloc, desk),
        "take" => jobs::taken(alloc, desk),
        "publish" => jobs::published(alloc, desk, steps),
        "look" => shown::looked(alloc, desk, rest),
        _ => Ok(String::from_str(alloc, line)?),
    }
}

fn small_book(alloc: Global) -> Result<OwnDesk, Memory> {
    let settings = Settings {
        keep: 2,
        page: 2_000,
        weight: 810,
        ..Settings::default()
    };
    OwnDesk::new(alloc, settings)
}

fn large_book(alloc: Global) -> Result<OwnDesk, Memory> {
    let settings = Settings {
        keep: 2,
        page: 2_000,
        weight: 1_000_000,
        ..Settings::default()
    };
    OwnDesk::new(alloc, settings)
}

fn answer_all<L: Ledger>(rt: &HostRuntime, blank: Blank) -> io::Result<()>
    requires name { blank.name ≡ L.name }
    requires parts { blank.parts ≡ L.parts }
    requires two { 2 ≤ blank.parts }
{
    let mut steps = Steps::<L>::start(rt, blank);
    let mut desk = small_book(rt.alloc()).map_err(no_memory)?;
    for line in rt.lines(rt.alloc()) {
        let line = line?;
        if line.as_str() == "large" {
            desk = large_book(rt.alloc()).map_err(no_memory)?;
        }
        let text = answer(rt.alloc(), &mut desk, line.as_str(), &mut steps).map_err(no_memory)?;
        println!(rt; "{text}")?;
    }
    Ok(())
}

fn main(rt: HostRuntime) -> io::Result<()> {
    answer_all::<Unkept>(&rt, Blank::new(2))
}
