ghost use Rattle.std.specs.Prelude.{◌≡◌, ℕ, ◌+◌, ◌≤◌, List, [], ◌++◌, Bool, Option, IfOk, length, map, filter, option_map};
ghost use Rattle.std.specs.Arc.{arc_value};
ghost use Rattle.evaluate.specs.Kept.{commit_subject};
ghost use Rattle.history.specs.declared.past.Past.{Past};
ghost use Rattle.history.specs.Prefixes.{records, graphs};
ghost use Rattle.history.specs.Lookups.{record_of};
ghost use Rattle.osv_prim.specs.declared.package.PackageKey.{PackageKey as Key};
ghost use Rattle.osv_record.specs.Advisories.{Advisory};
ghost use Rattle.package_index.specs.Listing.{listed};
ghost use Rattle.record_moves.specs.Moved.{IsMoved};
ghost use Rattle.repo_index.specs.Listing.{hit_indexes};
ghost use Rattle.impact_job.specs.Tables as tables;
ghost use Rattle.impact_job.specs.Order.{Ascend};
ghost use Rattle.snapshot.specs.Snapshots.{StandsFor, snapshot_upto};
ghost use Rattle.snapshot.specs.Pages.{is_above, cut, page, found_seen, page_seen};
ghost use Rattle.snapshot.specs.Subjects.{is_package_hit, is_commit_hit};

use crate::commits::{first_commit_hits, most_of, renewed_repos};
use crate::packages::{as_text, first_package_hits, from_index, renewed_index};
use crate::page::{Found, Page, shared};
use crate::ranges::read_version;
use form_index::FormIndex;
use id_index::IdIndex;
use impact_job::{Tables, split_at_id};
use osv_prim::{Id, Ledger, Memory, Oid, PackageKey, Steps, Subject};
use osv_record::Record;
use package_index::PackageIndex;
use record_moves::Moves;
use repo_index::RepoIndex;
use set_hits::places_of;
use std::alloc::Global;
use std::sync::Arc;

/// The imports that were published together. It never changes.
#[derive(Drop)]
pub struct Snapshot {
    pub(crate) tables: Arc<Tables>,
    // The advisories of each package, by their indexes in the tables.
    pub(crate) packages: PackageIndex,
    // The sets of the GIT ranges on each repository, and the indexes of their advisories in the tables.
    pub(crate) repos: RepoIndex,
    // The compiled forms of each advisory's ranges, by its index in the tables.
    pub(crate) ranges: FormIndex,
    // The advisory of each id, by its place in the tables.
    pub(crate) ids: IdIndex,
}

impl Snapshot {
    /// The snapshot of no imports. Only memory can fail.
    pub fn empty(alloc: Global) -> Result<Snapshot, Memory>
        ensures stands { IfOk result (λ s. StandsFor s []) }
    {
        let tables = Tables {
            upto: 0,
            records: Arc::new(alloc, Vec::new(alloc))?,
            repos: Arc::new(alloc, Vec::new(alloc))?,
            sets: Vec::new(alloc),
        };
        Ok(Snapshot {
            tables: Arc::new(alloc, tables)?,
            packages: PackageIndex::build(alloc, &[])?,
            repos: RepoIndex::build(alloc, &[], &[])?,
            ranges: FormIndex::build(alloc, &[])?,
            ids: IdIndex::build(alloc, &[])?,
        })
    }

    /// How many imports it is of.
    pub fn upto(&self) -> u64
        ensures { result ≡ snapshot_upto self.now }
    {
        self.tables.upto
    }

    /// What it keeps of its imports.
    pub fn tables(&self) -> &Arc<Tables>
        ensures { (p : List Past) → StandsFor self.now p → tables.StandsFor (arc_value result.now) p }
    {
        &self.tables
    }

    /// The advisory of an id, which is given by its bytes, also where it is withdrawn, by O(log n) comparisons.
    pub fn find(&self, id: &[u8]) -> Option<&Arc<Record>>
        ensures { (p : List Past) → StandsFor self.now p → option_map (λ a. arc_value a.now) result ≡ record_of p id.now }
    {
        self.ids.find(self.tables.records.as_slice(), id)
    }

    /// A page of hits: the first `size` of those whose ids are above `after`, or of all, ascending by id,
    /// and whether there are more. For a package it reads each advisory that is listed under it, with an id
    /// above `after`, once at most, and for a commit each that affects it, whatever its packages; it
    /// reads none behind the first hit that the page doesn't have. It takes no step through a graph. Only
    /// memory can fail.
    pub fn look<'a, L: Ledger>(
        &'a self,
        alloc: Global,
        subject: &Subject,
        after: Option<&Id>,
        size: u32,
        steps: &mut Steps<L>,
    ) -> Result<Found<'a>, Memory>
        ensures page { (p : List Past) → StandsFor self.now p → IfOk result (λ found. found_seen found ≡ page p subject.now (option_map (λ id. id.now) after.entry) size) }
        ensures records { (p : List Past) → StandsFor self.now p → steps.new.record_count ≤ steps.old.record_count + length (records p) }
        ensures listed { (p : List Past) (asked : Key) (version : Option (List ℕ)) → StandsFor self.now p → subject.now ≡ Subject.Package asked version
            → steps.new.record_count ≤ steps.old.record_count + length (listed (records p) asked) }
        ensures of_commit { (p : List Past) (commit : List ℕ) (asked : Option Key) → StandsFor self.now p → subject.now ≡ commit_subject commit asked
            → steps.new.record_count ≤ steps.old.record_count + length (hit_indexes p commit) }
        ensures graph { steps.new.graph ≡ steps.old.graph }
    {
        match subject {
            Subject::Package(asked, version) => {
                self.by_package(alloc, asked, as_text(version), after, size, steps)
            }
            Subject::Commit(commit) => self.by_commit(alloc, commit, None, after, size, steps),
            Subject::CommitIn(commit, asked) => {
                self.by_commit(alloc, commit, Some(asked), after, size, steps)
            }
        }
    }

    /// The same page, which outlives the snapshot: it shares each of its hits. Only memory can fail.
    pub fn answer<L: Ledger>(
        &self,
        alloc: Global,
        subject: &Subject,
        after: Option<&Id>,
        size: u32,
        steps: &mut Steps<L>,
    ) -> Result<Page, Memory>
        ensures page { (p : List Past) → StandsFor self.now p → IfOk result (λ found. page_seen found ≡ page p subject.now (option_map (λ id. id.now) after.entry) size) }
        ensures records { (p : List Past) → StandsFor self.now p → steps.new.record_count ≤ steps.old.record_count + length (records p) }
        ensures listed { (p : List Past) (asked : Key) (version : Option (List ℕ)) → StandsFor self.now p → subject.now ≡ Subject.Package asked version
            → steps.new.record_count ≤ steps.old.record_count + length (listed (records p) asked) }
        ensures of_commit { (p : List Past) (commit : List ℕ) (asked : Option Key) → StandsFor self.now p → subject.now ≡ commit_subject commit asked
            → steps.new.record_count ≤ steps.old.record_count + length (hit_indexes p commit) }
        ensures graph { steps.new.graph ≡ steps.old.graph }
    {
        let found = self.look(alloc, subject, after, size, steps)?;
        shared(alloc, &found)
    }

    // What `look` gives for a package, in this version where there is one.
    fn by_package<'a, L: Ledger>(
        &'a self,
        alloc: Global,
        asked: &PackageKey,
        version: Option<&str>,
        after: Option<&Id>,
        size: u32,
        steps: &mut Steps<L>,
    ) -> Result<Found<'a>, Memory>
        ensures page { (p : List Past) → StandsFor self.now p → IfOk result (λ found. found_seen found ≡ cut size (filter (is_above (option_map (λ id. id.now) after.entry)) (filter (is_package_hit asked.now (option_map (λ t. t.now) version.entry)) (records p)))) }
        ensures listed { (p : List Past) → StandsFor self.now p → steps.new.record_count ≤ steps.old.record_count + length (listed (records p) asked.now) }
        ensures graph { steps.new.graph ≡ steps.old.graph }
    {
        let records = self.tables.records.as_slice();
        // Those above are the end of all.
        let start = records
            .len()
            .saturating_sub(all_above(records, after).len());
        let indexes = from_index(self.packages.listed(asked), start);
        let keys = read_version(alloc, version)?;
        first_package_hits(
            alloc,
            records,
            &self.ranges,
            indexes,
            asked,
            version,
            &keys,
            size,
            steps,
        )
    }

    // The same for a commit, in entries of a package where one is asked for.
    fn by_commit<'a, L: Ledger>(
        &'a self,
        alloc: Global,
        commit: &Oid,
        asked: Option<&PackageKey>,
        after: Option<&Id>,
        size: u32,
        steps: &mut Steps<L>,
    ) -> Result<Found<'a>, Memory>
        ensures page { (p : List Past) → StandsFor self.now p → IfOk result (λ found. found_seen found ≡ cut size (filter (is_above (option_map (λ id. id.now) after.entry)) (filter (is_commit_hit (graphs p) commit.now (option_map (λ k. k.now) asked.entry)) (records p)))) }
        ensures listed { (p : List Past) → StandsFor self.now p → steps.new.record_count ≤ steps.old.record_count + length (hit_indexes p commit.now) }
        ensures graph { steps.new.graph ≡ steps.old.graph }
    {
        let records = self.tables.records.as_slice();
        // Those above are the end of all.
        let above = all_above(records, after);
        let start = records.len().saturating_sub(above.len());
        let places = places_of(alloc, self.tables.repos.as_slice(), commit)?;
        let most = most_of(asked, size, records.len());
        let indexes = self.repos.hits(alloc, places.as_slice(), start, most)?;
        let sets = self.tables.sets.as_slice();
        first_commit_hits(
            alloc,
            records,
            sets,
            indexes.as_slice(),
            places.as_slice(),
            asked,
            size,
            steps,
        )
    }
}

/// The snapshot that keeps these tables, over a base and where the advisories of that are in them. Its indexes
/// and compiled forms come from the base's, as far as they stay. Only memory can fail.
pub(crate) fn of_tables(
    alloc: Global,
    base: &Snapshot,
    moves: &Moves,
    kept: Arc<Tables>,
) -> Result<Snapshot, Memory>
    ensures stands { (b p : List Past) → StandsFor base.now b → IsMoved moves.now (records b) (records p) → tables.StandsFor (arc_value kept) p → IfOk result (λ s. StandsFor s p) }
    ensures upto { IfOk result (λ s. snapshot_upto s ≡ (arc_value kept).upto) }
{
    let records = kept.records.as_slice();
    let packages = renewed_index(alloc, records, &base.packages, moves)?;
    let repos = renewed_repos(alloc, records, &base.repos, moves, kept.sets.as_slice())?;
    let ranges = base.ranges.renew(alloc, records, moves)?;
    let ids = base.ids.renew(alloc, records, moves)?;
    Ok(Snapshot {
        tables: kept,
        packages,
        repos,
        ranges,
        ids,
    })
}

// Those above an id, or all.
fn all_above<'a>(records: &'a [Arc<Record>], after: Option<&Id>) -> &'a [Arc<Record>]
    ensures last { Ascend (map (λ a. arc_value a) records.now) → (front : List Advisory) × (map (λ a. arc_value a) records.now ≡ front ++ map (λ a. arc_value a) result.now) }
    ensures count { Ascend (map (λ a. arc_value a) records.now) → length result.now ≤ length records.now }
    ensures hits { Ascend (map (λ a. arc_value a) records.now)
        → (h : Advisory → Bool) → filter h (map (λ a. arc_value a) result.now) ≡ filter (is_above (option_map (λ id. id.now) after.entry)) (filter h (map (λ a. arc_value a) records.now)) }
{
    match after {
        None => records,
        Some(id) => split_at_id(records, id.as_str().as_bytes()).above,
    }
}
