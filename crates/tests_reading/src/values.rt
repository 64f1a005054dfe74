use evaluate::{HitIds, git_hit, hits, version_hit};
use osv_prim::{Id, IdFault, Ledger, Memory, PackageKey, Steps, Subject, Text};
use osv_record::{EventKind, Range, RangeKind, Record, RecordFault};
use std::alloc::{AllocError, Global};
use std::sync::Arc;

fn said(alloc: Global, text: &str) -> Result<String, AllocError> {
    String::from_str(alloc, text)
}

/// The id that a text is, or its fault.
pub fn id(alloc: Global, text: &str) -> Result<String, AllocError> {
    match Id::read(alloc, text) {
        Ok(id) => said(alloc, id.as_str()),
        Err(IdFault::BadId) => said(alloc, "BadId"),
        Err(IdFault::Memory) => said(alloc, "Memory"),
    }
}

/// The normal name of `ECOSYSTEM NAME`.
pub fn key(alloc: Global, text: &str) -> Result<String, AllocError> {
    let (ecosystem, name) = text.split_once(' ').unwrap_or((text, ""));
    match PackageKey::normal(alloc, ecosystem, name) {
        Ok(key) => said(alloc, key.name.as_str()),
        Err(Memory) => said(alloc, "Memory"),
    }
}

/// Whether a package of the first ecosystem matches when the second is asked.
pub fn matched(alloc: Global, text: &str) -> Result<String, AllocError> {
    let (whole, asked) = text.split_once(' ').unwrap_or((text, ""));
    match (
        PackageKey::normal(alloc, whole, "a"),
        PackageKey::normal(alloc, asked, "a"),
    ) {
        (Ok(package), Ok(asked)) => said(alloc, if package.matches(&asked) { "yes" } else { "no" }),
        _ => said(alloc, "Memory"),
    }
}

fn parts(alloc: Global, record: &Record) -> Result<String, AllocError> {
    let id = record.id.as_str();
    let bytes = record.text.len();
    let modified = record.modified;
    let written = record.modified_text.as_str();
    let withdrawn = if record.withdrawn { " withdrawn" } else { "" };
    let ranges = record.git_ranges();
    let mut text = format!(in alloc; "{id} {bytes} {modified} {written}{withdrawn} {ranges}")?;
    for entry in record.affected.as_slice() {
        text.push(' ')?;
        if let Some(package) = &entry.package {
            text.push_str(package.name.as_str())?;
        }
        for index in 0..entry.versions.len() {
            let version = entry.versions.get(index).unwrap_or(b"?".as_slice());
            text.push('/')?;
            text.push_str(std::str::from_utf8(version).unwrap_or("?"))?;
        }
        for range in entry.ranges.as_slice() {
            add_range(&mut text, range)?;
        }
    }
    Ok(text)
}

fn add_range(text: &mut String, range: &Range) -> Result<(), AllocError> {
    text.push_str(match range.kind {
        RangeKind::SemVer => " SEMVER",
        RangeKind::Ecosystem => " ECOSYSTEM",
        RangeKind::Git => " GIT",
    })?;
    if let Some(repo) = &range.repo {
        text.push('@')?;
        text.push_str(repo.as_str())?;
    }
    for event in range.events.as_slice() {
        text.push_str(match event.kind {
            EventKind::Introduced => " introduced=",
            EventKind::Fixed => " fixed=",
            EventKind::LastAffected => " last_affected=",
            EventKind::Limit => " limit=",
        })?;
        text.push_str(event.value.as_str())?;
    }
    Ok(())
}

/// What an advisory was read as, or its refusal.
pub fn record(alloc: Global, text: &str) -> Result<String, AllocError> {
    match Record::read(alloc, text.as_bytes()) {
        Ok(record) => parts(alloc, &record),
        Err(fault) => {
            let code = fault.code();
            let name = fault.name();
            format!(in alloc; "{code} {name}")
        }
    }
}

// Of npm's `p` and this version, or without a version.
fn subject(alloc: Global, version: &str) -> Result<Subject, Memory> {
    let package = PackageKey::normal(alloc, "npm", "p")?;
    if version == "-" {
        return Ok(Subject::Package(package, None));
    }
    Ok(Subject::Package(package, Some(Text::copy_of(alloc, version)?)))
}

fn kept<L: Ledger>(
    alloc: Global,
    texts: &str,
    subject: &Subject,
    steps: &mut Steps<L>,
) -> Result<String, RecordFault> {
    let mut records = Vec::new(alloc);
    let mut ids = HitIds::new(alloc);
    let mut single = 0u64;
    for text in texts.split(' ') {
        let record = Record::read(alloc, text.as_bytes())?;
        if is_hit(alloc, &record, subject, steps) {
            single = single.saturating_add(1);
        }
        records
            .push(Arc::new(alloc, record).map_err(no_room)?)
            .map_err(no_room)?;
        ids.import(
            alloc,
            Record::read(alloc, text.as_bytes())?,
            &[],
            subject,
            steps,
        )
        .map_err(no_memory)?;
    }
    let mut named = format!(in alloc; "{single}:").map_err(no_bytes)?;
    for record in &hits(alloc, records.as_slice(), &[], subject, steps).map_err(no_memory)? {
        named.push(' ').map_err(no_bytes)?;
        named.push_str(record.id.as_str()).map_err(no_bytes)?;
    }
    named.push_str(" =").map_err(no_bytes)?;
    for id in &ids.into_vec(alloc).map_err(no_bytes)? {
        named.push(' ').map_err(no_bytes)?;
        named.push_str(id.as_str()).map_err(no_bytes)?;
    }
    Ok(named)
}

fn is_hit<L: Ledger>(
    alloc: Global,
    record: &Record,
    subject: &Subject,
    steps: &mut Steps<L>,
) -> bool {
    let hit = match subject {
        Subject::Package(asked, Some(version)) => {
            version_hit(alloc, record, asked, Some(version.as_str()))
        }
        Subject::Package(asked, None) => version_hit(alloc, record, asked, None),
        Subject::Commit(commit) => git_hit(alloc, record, &[], commit, None, steps),
        Subject::CommitIn(commit, asked) => git_hit(alloc, record, &[], commit, Some(asked), steps),
    };
    hit.unwrap_or(false)
}

fn no_memory(_refused: Memory) -> RecordFault {
    RecordFault::Memory
}

fn no_bytes(_refused: AllocError) -> RecordFault {
    RecordFault::Memory
}

fn no_room<T: Drop>(_refused: std::alloc::AllocFailed<T>) -> RecordFault {
    RecordFault::Memory
}

/// How many of the advisories hit one by one, and the ids of the hits by both bodies, for a version.
pub fn hits_of<L: Ledger>(
    alloc: Global,
    text: &str,
    steps: &mut Steps<L>,
) -> Result<String, AllocError> {
    let (version, texts) = text.split_once(' ').unwrap_or((text, ""));
    let Ok(subject) = subject(alloc, version) else {
        return said(alloc, "Memory");
    };
    match kept(alloc, texts, &subject, steps) {
        Ok(named) => Ok(named),
        Err(fault) => said(alloc, fault.name()),
    }
}
