use osv_prim::{CommitRow, Id, List, Memory, Oid, PackageKey, RepoKey, Subject, Text};
use osv_record::Record;
use schedule::Step;
use std::alloc::Global;
use std::sync::Arc;

/// The number that a text begins with, and what stands behind it.
pub fn number(text: &str) -> (u64, &str) {
    let (word, rest) = text.split_once(' ').unwrap_or((text, ""));
    (word.parse::<u64>().unwrap_or(0), rest)
}

// `dbc` is the row of d, whose parents are b and c; an id is forty times its letter.
fn row_of(alloc: Global, text: &str) -> Result<Option<CommitRow>, Memory> {
    let mut ids = List::new(alloc);
    for byte in text.as_bytes() {
        if let Ok(id) = Oid::read([*byte; 40].as_slice()) {
            ids.push(id)?;
        }
    }
    let Some(oid) = ids.as_slice().first() else {
        return Ok(None);
    };
    let mut parents = List::new(alloc);
    for parent in &ids.as_slice()[1..] {
        parents.push(*parent)?;
    }
    Ok(Some(CommitRow { oid: *oid, parents }))
}

// Rows with a space between them.
fn rows_of(alloc: Global, text: &str) -> Result<List<CommitRow>, Memory> {
    let mut rows = List::new(alloc);
    for part in text.split(' ') {
        if let Some(row) = row_of(alloc, part)? {
            rows.push(row)?;
        }
    }
    Ok(rows)
}

// `BY JSON`
fn import(alloc: Global, text: &str) -> Result<Option<Step>, Memory> {
    let (by, json) = number(text);
    match Record::read(alloc, json.as_bytes()) {
        Ok(advisory) => Ok(Some(Step::Import {
            by,
            advisory: Arc::new(alloc, advisory)?,
        })),
        Err(_) => Ok(None),
    }
}

// `BY URL ROWS`
fn grow(alloc: Global, text: &str) -> Result<Step, Memory> {
    let (by, rest) = number(text);
    let (url, rest) = rest.split_once(' ').unwrap_or((rest, ""));
    Ok(Step::Grow {
        by,
        key: RepoKey::normal(alloc, url)?,
        rows: rows_of(alloc, rest)?,
    })
}

// A commit by its letter, or npm's package of this name in version 1.0.0.
fn subject_of(alloc: Global, word: &str) -> Result<Subject, Memory> {
    if let Some(letter) = word.strip_prefix("commit-") {
        if let Some(byte) = letter.as_bytes().first() {
            if let Ok(id) = Oid::read([*byte; 40].as_slice()) {
                return Ok(Subject::Commit(id));
            }
        }
    }
    let key = PackageKey::normal(alloc, "npm", word)?;
    let version = Text::copy_of(alloc, "1.0.0")?;
    Ok(Subject::Package(key, Some(version)))
}

// `BY SUBJECT [SNAPSHOT|newest [AFTER]]`
fn look(alloc: Global, text: &str) -> Result<Step, Memory> {
    let (by, rest) = number(text);
    let (subject, rest) = rest.split_once(' ').unwrap_or((rest, ""));
    let (named, after) = rest.split_once(' ').unwrap_or((rest, ""));
    let after = match Id::read(alloc, after) {
        Ok(id) => Some(id),
        Err(_) => None,
    };
    Ok(Step::Look {
        by,
        subject: subject_of(alloc, subject)?,
        named: named.parse::<u64>().ok(),
        after,
    })
}

/// The step that a line is, if it is one.
pub fn step(alloc: Global, line: &str) -> Result<Option<Step>, Memory> {
    if line == "enrol" {
        return Ok(Some(Step::Enrol));
    }
    let Some((word, rest)) = line.split_once(' ') else {
        return Ok(None);
    };
    let (by, _) = number(rest);
    match word {
        "import" => import(alloc, rest),
        "grow" => Ok(Some(grow(alloc, rest)?)),
        "pull" => Ok(Some(Step::Pull { by })),
        "take" => Ok(Some(Step::Take { by })),
        "work" => Ok(Some(Step::Work { by })),
        "back" => Ok(Some(Step::Back { by })),
        "look" => Ok(Some(look(alloc, rest)?)),
        _ => Ok(None),
    }
}
