ghost use Rattle.std.specs.Prelude.{◌≡◌, ◌≢◌, ◌<◌, ◌≤◌, ◌+◌, ◌^◌, Ok, Err, IfOk, IfErr, IfSome, IfNone, is_some, false, map, length};
ghost use Rattle.osv_prim.specs.declared.stop.Stop.TheVariants.{Refused};
ghost use Rattle.osv_record.specs.Advisories.{git_ranges, git_ranges_of, has_repo, has_repos, is_git};
ghost use Rattle.osv_record.specs.Parts.{of_parts};

use crate::fault::RecordFault;
use crate::range::Range;
use crate::reading::{Parts, record_from, record_keeping};
use json_view::Buffers;
use osv_prim::{Bytes, Id, List, Lists, Memory, PackageKey, Stop, Text};
use std::alloc::Global;
use std::marker::Model;

// Places in a list are numbers of 32 bits.
pub(crate) const PLACES: usize = 1 << 32;

/// A package, and the ranges and versions of it that an advisory names as affected (OSV schema 1.6,
/// "affected[]"). It has fewer than 2^32 of each.
#[derive(Debug, Drop)]
pub struct Affected {
    /// The package, where the entry names one; a GIT range needs none.
    pub package: Option<PackageKey>,
    /// The ranges, in the order of the advisory.
    pub ranges: List<Range>,
    /// The versions that are named one by one, as they are spelled, in the order of the advisory.
    pub versions: Lists<u8>,
}

impl Model for Affected {
    ghost use Rattle.std.specs.Prelude.{◌<◌, ◌^◌, length};
    ghost use Rattle.osv_record.specs.Advisories.{Entry};

    ghost Value = { Entry };

    ghost view = { λ a. record { «package» = a.«package»; ranges = a.ranges; versions = a.versions } };

    ghost invariant = { λ a. (length a.ranges < 2 ^ 32) × (length a.versions < 2 ^ 32) };
}

impl Affected {
    pub(crate) fn new(
        package: Option<PackageKey>,
        ranges: List<Range>,
        versions: Lists<u8>,
    ) -> Result<Affected, Memory>
        ensures { IfOk result (λ a. a ≡ record { «package» = «package»; ranges = ranges; versions = versions }) }
    {
        if ranges.len() >= PLACES || versions.len() >= PLACES {
            return Err(Memory);
        }
        Ok(Affected {
            package,
            ranges,
            versions,
        })
    }
}

/// An advisory (OSV schema 1.6), and the bytes that it was read from. It has fewer than 2^32 entries, and
/// over all its entries fewer than 2^32 GIT ranges.
#[derive(Debug, Drop)]
pub struct Record {
    /// Its `id`.
    pub id: Id,
    /// Its `modified`, in nanoseconds since 1970-01-01T00:00:00Z, in UTC without leap seconds. An earlier
    /// time is negative.
    pub modified: i128,
    /// The same time as it was written.
    pub modified_text: Text,
    /// Whether `withdrawn` is there and not null: since when isn't kept.
    pub withdrawn: bool,
    /// Its entries, in the order of the advisory.
    pub affected: List<Affected>,
    /// The bytes of the whole advisory, as they came in.
    pub text: Bytes,
    // How many GIT ranges its entries have.
    git_count: u32,
}

impl Model for Record {
    ghost use Rattle.std.specs.Prelude.{◌≡◌, ◌<◌, ◌^◌, length, false};
    ghost use Rattle.osv_record.specs.Advisories.{Advisory, git_ranges, has_repos};

    ghost Value = { Advisory };

    ghost view = { λ r. record { id = r.id; modified = r.modified; modified_text = r.modified_text; withdrawn = r.withdrawn; affected = r.affected; text = r.text } };

    ghost invariant = { λ r. (length r.affected < 2 ^ 32) × (git_ranges r.affected < 2 ^ 32) × (r.git_count ≡ git_ranges r.affected) × (r.git_count ≡ 0 → has_repos r.affected ≡ false) };
}

impl Record {
    ghost use Rattle.osv_record.specs.Reading.{advisory};

    /// The advisory that bytes are (OSV schema 1.6), or the first refusal (`RecordFault`). The bytes are
    /// kept as they came in, in one copy.
    pub fn read(alloc: Global, bytes: &[u8]) -> Result<Record, RecordFault>
        ensures value { IfOk result (λ r. advisory bytes.now ≡ Ok r) }
        ensures refused { IfErr result (λ e. e ≢ RecordFault.Memory → advisory bytes.now ≡ Err e) }
    {
        Record::read_in(alloc, bytes, &mut Buffers::new(alloc))
    }

    /// The same, in buffers that are kept from one advisory to the next, which is faster for many.
    pub fn read_in(
        alloc: Global,
        bytes: &[u8],
        buffers: &mut Buffers,
    ) -> Result<Record, RecordFault>
        ensures value { IfOk result (λ r. advisory bytes.now ≡ Ok r) }
        ensures refused { IfErr result (λ e. e ≢ RecordFault.Memory → advisory bytes.now ≡ Err e) }
    {
        told(record_from(alloc, bytes, buffers))
    }

    /// The same of bytes that the advisory then keeps without a copy. Room in their block of more than an
    /// eighth of them is given back. A refusal lets them go.
    pub fn keeping(alloc: Global, text: Bytes, buffers: &mut Buffers) -> Result<Record, RecordFault>
        ensures value { IfOk result (λ r. advisory text ≡ Ok r) }
        ensures refused { IfErr result (λ e. e ≢ RecordFault.Memory → advisory text ≡ Err e) }
    {
        told(record_keeping(alloc, text, buffers))
    }

    pub(crate) fn new(parts: Parts, text: Bytes) -> Result<Record, Memory>
        ensures { IfOk result (λ r. r ≡ of_parts text parts) }
    {
        match git_ranges_in(parts.affected.as_slice()) {
            Some(count) if count < PLACES as u64 && parts.affected.len() < PLACES => Ok(Record {
                id: parts.id,
                modified: parts.modified,
                modified_text: parts.modified_text,
                withdrawn: parts.withdrawn,
                affected: parts.affected,
                text,
                git_count: count as u32,
            }),
            _ => Err(Memory),
        }
    }

    /// How many GIT ranges its entries have. No entry is read for it.
    pub fn git_ranges(&self) -> u32
        ensures count { result ≡ git_ranges self.now.affected }
        ensures none { result ≡ 0 → has_repos self.now.affected ≡ false }
    {
        self.git_count
    }
}

// Want of memory is a refusal of its own.
fn told(read: Result<Record, Stop<RecordFault>>) -> Result<Record, RecordFault>
    ensures value { IfOk result (λ r. read ≡ Ok r) }
    ensures refused { IfErr result (λ e. e ≢ RecordFault.Memory → read ≡ Err (Refused e)) }
{
    match read {
        Ok(record) => Ok(record),
        Err(Stop::Memory) => Err(RecordFault::Memory),
        Err(Stop::Refused(fault)) => Err(fault),
    }
}

fn is_git(range: &Range) -> bool
    ensures kind { result ≡ is_git range.now.kind }
    ensures repo { result ≡ is_some range.now.repo }
{
    range.repo.is_some()
}

fn count_git(ranges: &[Range]) -> usize
    ensures count { result ≡ git_ranges_of ranges.now }
    ensures none { result ≡ 0 → has_repo ranges.now ≡ false }
{
    let mut count = 0;
    for range in ranges {
        if is_git(range) {
            count += 1;
        }
    }
    count
}

// None where they are more than a number of 64 bits can count.
pub(crate) fn git_ranges_in(entries: &[Affected]) -> Option<u64>
    ensures some { IfSome result (λ n. n ≡ git_ranges entries.now) }
    ensures zero { IfSome result (λ n. n ≡ 0 → has_repos entries.now ≡ false) }
    ensures none { IfNone result (2 ^ 64 ≤ git_ranges entries.now) }
{
    let mut count = 0u64;
    let mut rest = entries;
    while let [entry, after @ ..] = rest {
        count = count.checked_add(count_git(entry.ranges.as_slice()) as u64)?;
        rest = after;
    }
    Some(count)
}
