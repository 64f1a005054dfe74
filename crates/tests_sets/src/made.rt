use crate::kept::{begun, differences, grown, members};
use crate::range::event;
use crate::rows::oid;
use osv_prim::{CommitRow, Event, EventKind, Ledger, List, Memory, Steps};
use std::alloc::Global;

/// Numbers that follow from a seed.
#[derive(Drop)]
pub struct Dice {
    state: u64,
}

impl Dice {
    pub fn new(seed: u64) -> Dice {
        Dice { state: seed }
    }

    /// A number below a bound, and 0 where the bound is 0.
    pub fn below(&mut self, bound: u32) -> u32 {
        self.state = self
            .state
            .wrapping_mul(6364136223846793005)
            .wrapping_add(1442695040888963407);
        let drawn = (self.state >> 33) as u32;
        drawn.checked_rem(bound).unwrap_or(0)
    }
}

// The row of a number has up to three earlier rows as its parents; one in eight has none.
fn row(alloc: Global, number: u32, dice: &mut Dice) -> Result<Option<CommitRow>, Memory> {
    let Ok(id) = oid(format!(in alloc; "{number:x}")?.as_str()) else {
        return Ok(None);
    };
    let mut parents = List::new(alloc);
    if dice.below(8) > 0 {
        for _ in 0..dice.below(3).saturating_add(1) {
            let back = dice.below(number.min(12)).saturating_add(1);
            let parent = number.saturating_sub(back);
            if let Ok(parent_id) = oid(format!(in alloc; "{parent:x}")?.as_str()) {
                if parent > 0 && !parents.as_slice().contains(&parent_id) {
                    parents.push(parent_id)?;
                }
            }
        }
    }
    Ok(Some(CommitRow { oid: id, parents }))
}

fn kind(drawn: u32) -> EventKind {
    match drawn {
        0 => EventKind::Introduced,
        1 | 2 => EventKind::Fixed,
        3 | 4 => EventKind::LastAffected,
        _ => EventKind::Limit,
    }
}

// An introduced event and up to five others, which name rows that are there or not.
fn events(alloc: Global, count: u32, dice: &mut Dice) -> Result<List<Event>, Memory> {
    let mut events = List::new(alloc);
    if dice.below(2) == 0 {
        events.push(event(alloc, EventKind::Introduced, "0")?)?;
    }
    for _ in 0..dice.below(6).saturating_add(1) {
        let kind = kind(dice.below(7));
        let number = dice.below(count.saturating_add(4)).saturating_add(1);
        let name = format!(in alloc; "{number:x}")?;
        events.push(event(alloc, kind, name.as_str())?)?;
    }
    Ok(events)
}

// The members after each step, and at how many commits of a step the ways to tell them differ.
fn grown_in_steps<L: Ledger>(
    alloc: Global,
    count: u32,
    each: u32,
    dice: &mut Dice,
    steps: &mut Steps<L>,
) -> Result<String, Memory> {
    let mut kept = begun(alloc, events(alloc, count, dice)?, steps)?;
    let mut text = String::new(alloc);
    let mut rows = Vec::new(alloc);
    for number in 1..count.saturating_add(1) {
        if let Some(row) = row(alloc, number, dice)? {
            rows.push(row)?;
        }
        if number.checked_rem(each).unwrap_or(0) == 0 || number == count {
            let Ok(larger) = grown(alloc, kept, rows.as_slice(), steps) else {
                return Ok(String::from_str(alloc, "no graph")?);
            };
            kept = larger;
            rows.clear();
            let there = members(&kept.set);
            let differ = differences(alloc, &kept, steps)?;
            text.push_str(format!(in alloc; " {there}:{differ}")?.as_str())?;
        }
    }
    Ok(text)
}

/// `SEED COUNT EACH`: a range, and a history of COUNT commits that grows by EACH at a time.
pub fn answer_of<L: Ledger>(
    alloc: Global,
    line: &str,
    steps: &mut Steps<L>,
) -> Result<String, Memory> {
    let (seed, rest) = line.split_once(' ').unwrap_or((line, ""));
    let (count, each) = rest.split_once(' ').unwrap_or((rest, ""));
    let mut dice = Dice::new(seed.parse::<u64>().unwrap_or(0));
    let text = grown_in_steps(
        alloc,
        count.parse::<u32>().unwrap_or(0),
        each.parse::<u32>().unwrap_or(0),
        &mut dice,
        steps,
    )?;
    Ok(format!(in alloc; "made{text}")?)
}
