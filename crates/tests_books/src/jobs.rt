use book_desk::{Desk, Pulled, Taken};
use desk_calls::{count_of, give_back_of, publish, pull_of};
use gate::OpenGate;
use osv_prim::{Ledger, Memory, Steps};
use session_model::Sign;
use std::alloc::Global;

/// Asks for a snapshot of all imports. A job is given back, once a second call was told that it is out.
pub fn pulled<D: Desk>(alloc: Global, desk: &mut D) -> Result<String, Memory> {
    let _known = desk.point();
    let goal = count_of(desk);
    match pull_of(desk, goal)? {
        Pulled::Reached { snapshot, upto } => Ok(format!(in alloc;
            "snapshot {snapshot} of {upto}"
        )?),
        Pulled::Out { out } => Ok(format!(in alloc; "{out} out")?),
        Pulled::Job(job) => {
            let answer = give_back_of(desk, job);
            let back = answer.is_ok();
            Ok(format!(in alloc; "a job, given back: {back}")?)
        }
    }
}

/// Asks for work where none is.
pub fn taken<D: Desk>(alloc: Global, desk: &mut D) -> Result<String, Memory> {
    match desk.take()? {
        Taken::Nothing { out } => Ok(format!(in alloc; "nothing, {out} out")?),
        Taken::Job(_) => Ok(String::from_str(alloc, "a job")?),
    }
}

/// Makes and publishes the snapshot of all imports.
pub fn published<D: Desk, L: Ledger>(
    alloc: Global,
    desk: &mut D,
    steps: &mut Steps<L>,
) -> Result<String, Memory> {
    match publish(alloc, desk, &OpenGate, steps)? {
        Sign::Published { snapshot, upto } => {
            Ok(format!(in alloc; "snapshot {snapshot} of {upto}")?)
        }
        Sign::Building { out, took } => Ok(format!(in alloc; "{out} out after {took}")?),
        _ => Ok(String::from_str(alloc, "no publication")?),
    }
}
