use book::Book;
use book_desk::Pulled;
use gate::OpenGate;
use osv_prim::{Ledger, Memory, Steps};
use osv_record::Record;
use settings::Settings;
use snapshot::do_job;
use std::alloc::Global;
use std::sync::Arc;

/// A job that went out to caller 0 is done, and handed in by caller 1.
pub fn by_another<L: Ledger>(
    alloc: Global,
    json: &str,
    steps: &mut Steps<L>,
) -> Result<String, Memory> {
    let mut book = Book::new(alloc, Settings::default())?;
    let (Ok(first), Ok(second)) = (book.enrol(), book.enrol()) else {
        return Ok(String::from_str(alloc, "no callers")?);
    };
    let Ok(advisory) = Record::read(alloc, json.as_bytes()) else {
        return Ok(String::from_str(alloc, "not read")?);
    };
    let _place = book.import(first, Arc::new(alloc, advisory)?);
    let goal = book.imports();
    match book.pull(first, goal)? {
        Pulled::Job(job) => match do_job(alloc, job, &OpenGate, steps) {
            Ok(finished) => match book.finish(second, finished).0 {
                Ok(_) => Ok(String::from_str(alloc, "taken")?),
                Err(strange) => Ok(format!(in alloc; "strange: {strange:?}")?),
            },
            Err(_) => Err(Memory),
        },
        _ => Ok(String::from_str(alloc, "no job")?),
    }
}
