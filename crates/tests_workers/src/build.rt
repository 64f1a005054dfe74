// Builds that are opened for others to do.

use book_desk::{Desk, Pulled};
use desk_calls::{count_of, give_back_of, pull_of};
use osv_prim::Memory;
use osv_record::Record;
use snapshot::Job;
use std::alloc::Global;
use std::sync::Arc;

fn import_text<D: Desk>(alloc: Global, desk: &mut D, json: &str) -> Result<(), Memory> {
    let Ok(advisory) = Record::read(alloc, json.as_bytes()) else {
        return Err(Memory);
    };
    match desk.import(Arc::new(alloc, advisory)?) {
        Ok(_) => Ok(()),
        Err(_) => Err(Memory),
    }
}

/// Imports an advisory with this number.
pub fn import_one<D: Desk>(alloc: Global, desk: &mut D, number: u64) -> Result<(), Memory> {
    let json = format!(in alloc;
        r#"{{"id":"X-{number}","modified":"2024-01-01T00:00:00Z","affected":[{{"package":{{"ecosystem":"npm","name":"p"}},"versions":["1.0.0"]}}]}}"#
    )?;
    import_text(alloc, desk, json.as_str())
}

/// Imports an advisory with so many GIT ranges, each on a repository of its own.
pub fn import_ranges<D: Desk>(alloc: Global, desk: &mut D, count: u64) -> Result<(), Memory> {
    let mut ranges = String::new(alloc);
    for number in 0..count {
        let comma = if number == 0 { "" } else { "," };
        let range = format!(in alloc;
            r#"{comma}{{"type":"GIT","repo":"https://e.example/{number}","events":[{{"introduced":"0"}}]}}"#
        )?;
        ranges.push_str(range.as_str())?;
    }
    let json = format!(in alloc;
        r#"{{"id":"X-1","modified":"2024-01-01T00:00:00Z","affected":[{{"package":{{"ecosystem":"npm","name":"p"}},"ranges":[{ranges}]}}]}}"#
    )?;
    import_text(alloc, desk, json.as_str())
}

/// Opens a build over all imports and gives its first job back, where a snapshot lacks some.
pub fn open<D: Desk>(desk: &mut D) -> Result<(), Memory> {
    let _known = desk.point();
    let goal = count_of(desk);
    if let Pulled::Job(job) = pull_of(desk, goal)? {
        let _ = give_back_of(desk, job);
    }
    Ok(())
}

/// The same, but the job is kept.
pub fn open_and_keep<D: Desk>(desk: &mut D) -> Result<Option<Job>, Memory> {
    let _known = desk.point();
    let goal = count_of(desk);
    match pull_of(desk, goal)? {
        Pulled::Job(job) => Ok(Some(job)),
        _ => Ok(None),
    }
}

/// The number of the newest snapshot.
pub fn newest<D: Desk>(alloc: Global, desk: &mut D) -> Result<u64, Memory> {
    let mut found = Vec::new(alloc);
    Ok(desk.look(&[], &mut found)?.number)
}
