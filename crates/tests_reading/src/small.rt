use json_view::{Buffers, Document};
use osv_prim::{
    Bytes, CommitRow, Event, EventKind, Id, IdFault, List, Lists, Memory, Oid, PackageKey, RepoKey,
    Subject, Text, read_u64, read_u64_in,
};
use std::alloc::{AllocError, Global};

fn lists(alloc: Global) -> Result<u64, Memory> {
    let mut texts = List::with_capacity(alloc, 2)?;
    texts.push(Text::copy_of(alloc, "a")?)?;
    texts.push(Text::copy_of(alloc, "a text of thirty-one bytes here")?)?;
    let bytes = Bytes::copy_of(alloc, b"abc")?;
    Ok(bytes.len() as u64 + texts.len() as u64)
}

/// How many bytes and texts the small types hold, and whether a text is read as an object.
pub fn made(alloc: Global) -> Result<String, AllocError> {
    let mut buffers = Buffers::new(alloc);
    let object = match Document::read(alloc, b"{}", &mut buffers) {
        Ok(document) => document.root().is_object(),
        Err(_) => false,
    };
    match lists(alloc) {
        Ok(count) => format!(in alloc; "{count} {object}"),
        Err(Memory) => String::from_str(alloc, "Memory"),
    }
}

fn packed(alloc: Global) -> Result<Lists<u8>, Memory> {
    let mut texts = Lists::with_capacity(alloc, 3, 3)?;
    texts.push(b"a")?;
    texts.push(b"")?;
    texts.push(b"bc")?;
    Ok(texts)
}

/// Of lists in one block: how many there are, how many members they have, and where a text stands.
pub fn in_one_block(alloc: Global) -> Result<String, AllocError> {
    let Ok(texts) = packed(alloc) else {
        return String::from_str(alloc, "Memory");
    };
    let (count, total) = (texts.len(), texts.total());
    let last = match texts.get(2) {
        Some(text) => text.len(),
        None => 9,
    };
    let place = texts.position(b"bc").unwrap_or(9);
    let (empty, other) = (texts.contains(b""), texts.contains(b"b"));
    let beyond = texts.get(3).is_none();
    format!(in alloc; "{count} {total} {last} {place} {empty} {other} {beyond}")
}

fn keys(alloc: Global) -> Result<bool, Memory> {
    let key = RepoKey::normal(alloc, "https://example.org/r/.git")?;
    let read = RepoKey::from_key(alloc, key.as_str())?;
    let package = PackageKey::normal(alloc, "PyPI", "A_b")?;
    let asked = Subject::Package(package, Some(Text::copy_of(alloc, "1")?));
    let copy = asked.copy(alloc)?;
    let same = match &copy {
        Subject::Package(package, Some(version)) => {
            package.name.as_str() == "a-b" && version.as_str() == "1"
        }
        _ => false,
    };
    Ok(same && read == key.copy(alloc)? && read.as_str() == "https://example.org/r/")
}

fn parts(alloc: Global) -> Result<bool, Memory> {
    let event = Event {
        kind: EventKind::Introduced,
        value: Text::copy_of(alloc, "0")?,
    };
    let Ok(oid) = Oid::read(b"ce013625030ba8dba906f756967f9e9ca394464a") else {
        return Ok(false);
    };
    let mut parents = List::new(alloc);
    parents.push(oid)?;
    let row = CommitRow { oid, parents }.copy(alloc)?;
    let commit = Subject::Commit(oid).copy(alloc)?;
    let same = matches!(commit, Subject::Commit(_)) && row.parents.len() == 1 && row.oid == oid;
    Ok(same && event.copy(alloc)?.is_lowest() && !event.is_endless())
}

fn id(alloc: Global) -> Result<bool, IdFault> {
    let id = Id::read(alloc, "X-1")?;
    Ok(id.copy(alloc)? == id)
}

/// Whether copies are what they were made of.
pub fn copied(alloc: Global) -> Result<String, AllocError> {
    let keys = matches!(keys(alloc), Ok(true));
    let parts = matches!(parts(alloc), Ok(true));
    let id = matches!(id(alloc), Ok(true));
    format!(in alloc; "{keys} {parts} {id}")
}

/// The numbers that digits spell; 0 stands for none.
pub fn numbers(alloc: Global) -> Result<String, AllocError> {
    let most = read_u64(b"018446744073709551615").unwrap_or(0);
    let above = read_u64(b"18446744073709551616").unwrap_or(0);
    let signed = read_u64(b"+1").unwrap_or(0);
    let in_range = read_u64_in(b"0064", 4, 64, 1_000).unwrap_or(0);
    let below = read_u64_in(b"63", 4, 64, 1_000).unwrap_or(0);
    let long = read_u64_in(b"00064", 4, 64, 1_000).unwrap_or(0);
    format!(in alloc; "{most} {above} {signed} {in_range} {below} {long}")
}
