// The history of a book, and whether it is legal and has what a caller was told.
ghost use Rattle.std.specs.Prelude.{◌≡◌};
ghost use Rattle.book_model.specs.State.{State};

use book::Entry;
use osv_prim::Memory;
use osv_record::Record;
use pass_desk::BoxedBook;
use std::alloc::Global;
use std::sync::Arc;
use turn_lock::Call;

/// An entry, by whom and what; nobody grows a graph here.
#[derive(Drop)]
pub enum Seen {
    Import { by: u64, advisory: Arc<Record> },
    Publish { by: u64, upto: u64 },
}

/// An entry of a caller's own, by its place, as it was told.
#[derive(Drop)]
pub enum Told {
    Import { place: u64, advisory: Arc<Record> },
    Publish { place: u64, snapshot: u64 },
}

/// Reads the whole history.
#[derive(Drop)]
pub struct Read {
    pub alloc: Global,
}

fn copied(alloc: Global, entries: &[Entry]) -> Result<Vec<Seen>, Memory> {
    let mut all = Vec::with_capacity(alloc, entries.len())?;
    for entry in entries {
        match entry {
            Entry::Import { by, advisory } => all.push(Seen::Import {
                by: *by,
                advisory: Arc::try_clone(advisory)?,
            })?,
            Entry::Publish { by, upto } => all.push(Seen::Publish {
                by: *by,
                upto: *upto,
            })?,
            Entry::Grow { .. } => {}
        }
    }
    Ok(all)
}

impl Call<BoxedBook> for Read {
    type Answer = Result<Vec<Seen>, Memory>;

    ghost needs = { λ c by h n. Unit {0} };

    ghost does = { λ c by s a t. t ≡ s };

    fn act(self, by: u64, state: &mut BoxedBook) -> Result<Vec<Seen>, Memory> {
        let _by = by;
        copied(self.alloc, state.book().entries())
    }

    ghost lasts = { λ c by xs ys n m h p le. tt };
}

/// Whether each publication is of more imports than the one before, of no more than there are, and of all that there
/// were at the one before.
pub fn is_legal(entries: &[Seen]) -> bool {
    let mut count: u64 = 0;
    let mut last: u64 = 0;
    let mut before: u64 = 0;
    for entry in entries {
        match entry {
            Seen::Import { .. } => count = count.saturating_add(1),
            Seen::Publish { upto, .. } => {
                if *upto <= last || count < *upto || *upto < before {
                    return false;
                }
                last = *upto;
                before = count;
            }
        }
    }
    true
}

// Whether an entry at this place is the one that was told; a publication makes this snapshot.
fn is_told(told: &Told, at: u64, made: u64, entry: &Seen) -> bool {
    match (told, entry) {
        (
            Told::Import { place, advisory },
            Seen::Import {
                advisory: entered,
                ..
            },
        ) => { *place == at && entered.text.as_slice() == advisory.text.as_slice() }
        (Told::Publish { place, snapshot }, Seen::Publish { .. }) => {
            *place == at && *snapshot == made
        }
        _ => false,
    }
}

/// Whether the entries by a caller are those that it was told, once each, in their order.
pub fn has_own(entries: &[Seen], me: u64, told: &[Told]) -> bool {
    let mut next = told.iter();
    let mut at: u64 = 0;
    let mut made: u64 = 0;
    for entry in entries {
        let owner = match entry {
            Seen::Import { by, .. } => *by,
            Seen::Publish { by, .. } => {
                made = made.saturating_add(1);
                *by
            }
        };
        if owner == me {
            let Some(told) = next.next() else {
                return false;
            };
            if !is_told(told, at, made, entry) {
                return false;
            }
        }
        at = at.saturating_add(1);
    }
    next.next().is_none()
}
