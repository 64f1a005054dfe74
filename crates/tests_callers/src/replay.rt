// What snapshots are, in a replay of a history.

use crate::entries::Seen;
use book_desk::Desk;
use desk_calls::{newest_of, publish};
use desks::OwnDesk;
use gate::OpenGate;
use osv_prim::{Ledger, Memory, Steps};
use osv_record::Record;
use settings::Settings;
use snapshot::Snapshot;
use std::alloc::Global;
use std::sync::Arc;

/// A number for all that a snapshot has: of the texts of its advisories, in order (FNV-1a).
pub fn digest(snapshot: &Snapshot) -> u64 {
    let mut hash: u64 = 0xcbf2_9ce4_8422_2325 ^ snapshot.upto();
    for advisory in snapshot.tables().records.iter() {
        for byte in advisory.text.as_slice() {
            hash = (hash ^ u64::from(*byte)).wrapping_mul(0x0100_0000_01b3);
        }
    }
    hash
}

fn imports_of(alloc: Global, entries: &[Seen]) -> Result<Vec<Arc<Record>>, Memory> {
    let mut imports = Vec::with_capacity(alloc, entries.len())?;
    for entry in entries {
        if let Seen::Import { advisory, .. } = entry {
            imports.push(Arc::try_clone(advisory)?)?;
        }
    }
    Ok(imports)
}

/// The digest of each snapshot, by its number, made anew by one caller with a book of its own, which imports what each
/// publication has and publishes it.
pub fn replayed<L: Ledger>(
    alloc: Global,
    entries: &[Seen],
    steps: &mut Steps<L>,
) -> Result<Vec<u64>, Memory> {
    let imports = imports_of(alloc, entries)?;
    let mut next = imports.into_iter();
    let mut desk = OwnDesk::new(alloc, Settings::default())?;
    let mut all = Vec::new(alloc);
    let mut done: u64 = 0;
    all.push(digest(&newest_of(alloc, &mut desk)?.snapshot))?;
    for entry in entries {
        if let Seen::Publish { upto, .. } = entry {
            for _ in done..*upto {
                if let Some(advisory) = next.next() {
                    let _place = desk.import(advisory);
                }
            }
            done = *upto;
            let _sign = publish(alloc, &mut desk, &OpenGate, steps)?;
            all.push(digest(&newest_of(alloc, &mut desk)?.snapshot))?;
        }
    }
    Ok(all)
}
