// A caller alone with its book.

use crate::build::{import_one, import_ranges, newest, open, open_and_keep};
use book_desk::Desk;
use desks::OwnDesk;
use gate::OpenGate;
use impact_worker::{DrainEnd, Drained, drain};
use osv_prim::{Ledger, Memory, Steps};
use settings::Settings;
use std::alloc::Global;

// What a drain came to, after a space.
fn push_told(alloc: Global, text: &mut String, drained: Drained) -> Result<(), Memory> {
    let did = drained.did;
    let told = match drained.end {
        DrainEnd::Nothing { out } => format!(in alloc; " {did} and none, {out} out;")?,
        DrainEnd::Most => format!(in alloc; " {did} as asked;")?,
        DrainEnd::Memory => format!(in alloc; " {did} and no memory;")?,
    };
    Ok(text.push_str(told.as_str())?)
}

fn import_all<D: Desk>(alloc: Global, desk: &mut D, count: u64) -> Result<(), Memory> {
    for number in 0..count {
        import_one(alloc, desk, number)?;
    }
    Ok(())
}

// Opens a build and drains by each of the numbers.
fn drain_each<L: Ledger>(
    alloc: Global,
    desk: &mut OwnDesk,
    numbers: &str,
    steps: &mut Steps<L>,
) -> Result<String, Memory> {
    open(desk)?;
    let mut text = String::from_str(alloc, "did")?;
    for number in numbers.split(' ') {
        let most = number.parse().unwrap_or(0);
        let drained = drain(alloc, desk, &OpenGate, most, steps);
        push_told(alloc, &mut text, drained)?;
    }
    let number = newest(alloc, desk)?;
    let done = text.as_str();
    Ok(format!(in alloc; "{done} snapshot {number}")?)
}

/// Drains by each of the numbers, the first of which is how many advisories are imported before.
pub fn drained<L: Ledger>(
    alloc: Global,
    numbers: &str,
    steps: &mut Steps<L>,
) -> Result<String, Memory> {
    let mut desk = OwnDesk::new(alloc, Settings::default())?;
    let (count, numbers) = numbers.split_once(' ').unwrap_or((numbers, ""));
    import_all(alloc, &mut desk, count.parse().unwrap_or(0))?;
    drain_each(alloc, &mut desk, numbers, steps)
}

/// The same, where the first is how many GIT ranges the one advisory has that is imported before.
pub fn pieces<L: Ledger>(
    alloc: Global,
    numbers: &str,
    steps: &mut Steps<L>,
) -> Result<String, Memory> {
    let mut desk = OwnDesk::new(alloc, Settings::default())?;
    let (count, numbers) = numbers.split_once(' ').unwrap_or((numbers, ""));
    import_ranges(alloc, &mut desk, count.parse().unwrap_or(0))?;
    drain_each(alloc, &mut desk, numbers, steps)
}

/// Drains while the caller has a job of the build that is open.
pub fn held<L: Ledger>(alloc: Global, most: u64, steps: &mut Steps<L>) -> Result<String, Memory> {
    let mut desk = OwnDesk::new(alloc, Settings::default())?;
    import_one(alloc, &mut desk, 0)?;
    let kept = open_and_keep(&mut desk)?;
    let mut text = String::from_str(alloc, "did")?;
    let drained = drain(alloc, &mut desk, &OpenGate, most, steps);
    push_told(alloc, &mut text, drained)?;
    let is_kept = kept.is_some();
    let done = text.as_str();
    Ok(format!(in alloc; "{done} a job is kept: {is_kept}")?)
}
