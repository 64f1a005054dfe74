ghost use Rattle.std.specs.Prelude.{◌≡◌, IfOk, OnErr, option_map};
ghost use Rattle.std.specs.Arc.{arc_value};
ghost use Rattle.schedule.specs.Machine.{DoesEnrol, DoesImport, DoesGrow, DoesLook};
ghost use Rattle.schedule.specs.Holding.{machine, IsHolding};

use crate::step::{Answer, PlayFault};
use book::Book;
use book_desk::{GrowFault, ImportFault, Kept};
use commit_graph::GraphFault;
use osv_prim::{CommitRow, Id, Ledger, Memory, RepoKey, Steps, Subject};
use osv_record::Record;
use snapshot::Job;
use std::alloc::Global;
use std::sync::Arc;

/// A further caller, without a job.
pub(crate) fn enrol(book: &mut Book, held: &mut Vec<Option<Job>>) -> Result<Answer, Memory>
    requires { IsHolding book.old held.old.items }
    ensures holding { IsHolding book.new held.new.items }
    ensures settings { book.new.settings ≡ book.old.settings }
    ensures does { IfOk result (λ a. DoesEnrol (machine book.old held.old.items) a (machine book.new held.new.items)) }
    ensures err { OnErr result (machine book.new held.new.items ≡ machine book.old held.old.items) }
{
    held.reserve(1)?;
    match book.enrol() {
        Ok(number) => {
            held.push_reserved(None);
            Ok(Answer::Caller(number))
        }
        Err(_) => Ok(Answer::Refused(PlayFault::CallersSpent)),
    }
}

/// Imports an advisory.
pub(crate) fn import(
    book: &mut Book,
    held: &[Option<Job>],
    by: u64,
    advisory: &Arc<Record>,
) -> Result<Answer, Memory>
    requires { IsHolding book.old held.now }
    ensures holding { IsHolding book.new held.now }
    ensures does { IfOk result (λ a. DoesImport by (arc_value advisory.now) (machine book.old held.now) a (machine book.new held.now)) }
    ensures settings { book.new.settings ≡ book.old.settings }
    ensures err { OnErr result (book.new ≡ book.old) }
{
    if book.callers() <= by {
        return Ok(Answer::Refused(PlayFault::NoCaller));
    }
    let shared = Arc::try_clone(advisory)?;
    match book.import(by, shared) {
        Ok(place) => Ok(Answer::Entry(place)),
        Err(ImportFault::JournalFull { used, limit }) => {
            Ok(Answer::Refused(PlayFault::Full { used, limit }))
        }
        Err(ImportFault::Memory) => Err(Memory),
    }
}

/// Joins rows to the graph of a repository.
pub(crate) fn grow<L: Ledger>(
    alloc: Global,
    book: &mut Book,
    held: &[Option<Job>],
    by: u64,
    key: &RepoKey,
    rows: &[CommitRow],
    most: u32,
    steps: &mut Steps<L>,
) -> Result<Answer, Memory>
    requires holding { IsHolding book.old held.now }
    requires most { most ≡ book.old.settings.commits }
    ensures holding { IsHolding book.new held.now }
    ensures does { IfOk result (λ a. DoesGrow by key.now rows.now (machine book.old held.now) a (machine book.new held.now)) }
    ensures settings { book.new.settings ≡ book.old.settings }
    ensures err { OnErr result (book.new ≡ book.old) }
{
    if book.callers() <= by {
        return Ok(Answer::Refused(PlayFault::NoCaller));
    }
    let (version, graph) = book.repo(key)?;
    let owned = key.copy(alloc)?;
    match graph.extend(alloc, rows, most, steps) {
        Ok(larger) => {
            let larger = Arc::new(alloc, larger)?;
            match book.grow(by, owned, version, larger) {
                Ok(place) => Ok(Answer::Entry(place)),
                Err(GrowFault::JournalFull { used, limit }) => {
                    Ok(Answer::Refused(PlayFault::Full { used, limit }))
                }
                Err(GrowFault::RepoMoved { .. }) => unreachable!(),
                Err(GrowFault::Memory) => Err(Memory),
            }
        }
        Err(GraphFault::Memory) => Err(Memory),
        Err(fault) => Ok(Answer::Refused(PlayFault::Graph(fault))),
    }
}

/// A page of the hits of a snapshot that is named, or of the newest one.
pub(crate) fn look<L: Ledger>(
    alloc: Global,
    book: &Book,
    held: &[Option<Job>],
    by: u64,
    subject: &Subject,
    named: Option<u64>,
    after: Option<&Id>,
    size: u32,
    steps: &mut Steps<L>,
) -> Result<Answer, Memory>
    requires { size ≡ book.now.settings.page }
    ensures { IfOk result (λ a. DoesLook by subject.now named (option_map (λ id. id.now) after.entry) (machine book.now held.now) a (machine book.now held.now)) }
{
    if book.callers() <= by {
        return Ok(Answer::Refused(PlayFault::NoCaller));
    }
    match named {
        None => {
            let mut found = Vec::new(alloc);
            let newest = book.look(&[], &mut found)?;
            let page = newest.snapshot.answer(alloc, subject, after, size, steps)?;
            Ok(Answer::Page(page))
        }
        Some(number) => {
            let mut found = Vec::with_capacity(alloc, 1)?;
            let _newest = book.look(&[number], &mut found)?;
            match found.pop() {
                Some(Kept::Here(snapshot)) => {
                    let page = snapshot.answer(alloc, subject, after, size, steps)?;
                    Ok(Answer::Page(page))
                }
                Some(Kept::Gone { oldest }) => Ok(Answer::Gone(oldest)),
                Some(Kept::Ahead { newest }) => Ok(Answer::Ahead(newest)),
                None => Err(Memory),
            }
        }
    }
}
