//! Reads lines `query|BODY`, `batch|BODY` or `copies|COUNT|QUERY`, a batch of so many copies of one query, and prints
//! what the body is read as, or its refusal.
#![tactic(auto)]

use osv_prim::{Memory, Oid, PackageKey, Subject, Text};
use query_json::{BatchFault, Query, QueryFault, read_batch, read_query};
use std::alloc::Global;
use std::io;

fn push_key(text: &mut String, key: &PackageKey) -> Result<(), Memory> {
    text.push_str(key.ecosystem.as_str())?;
    text.push('|')?;
    text.push_str(key.name.as_str())?;
    Ok(())
}

fn push_package(text: &mut String, key: &PackageKey, version: &Option<Text>) -> Result<(), Memory> {
    text.push_str("package ")?;
    push_key(text, key)?;
    if let Some(version) = version {
        text.push('|')?;
        text.push_str(version.as_str())?;
    }
    Ok(())
}

fn push_commit(text: &mut String, commit: &Oid) -> Result<(), Memory> {
    text.push_str("commit ")?;
    let digits = commit.write();
    match str::from_utf8(digits.as_slice()) {
        Ok(digits) => Ok(text.push_str(digits)?),
        Err(_) => Ok(()),
    }
}

fn push_subject(text: &mut String, subject: &Subject) -> Result<(), Memory> {
    match subject {
        Subject::Package(key, version) => push_package(text, key, version),
        Subject::Commit(commit) => push_commit(text, commit),
        Subject::CommitIn(commit, key) => {
            push_commit(text, commit)?;
            text.push_str(" in ")?;
            push_key(text, key)
        }
    }
}

fn push_query(alloc: Global, text: &mut String, query: &Query) -> Result<(), Memory> {
    push_subject(text, &query.subject)?;
    if let Some(token) = &query.page {
        text.push_str(" behind ")?;
        text.push_str(page_token::write(alloc, token)?.as_str())?;
    }
    Ok(())
}

fn refusal(alloc: Global, fault: &QueryFault) -> Result<String, Memory> {
    Ok(format!(in alloc; "{} {}", fault.code(), fault.name())?)
}

fn query_answer(alloc: Global, body: &str) -> Result<String, Memory> {
    let mut text = String::new(alloc);
    match read_query(alloc, body.as_bytes()) {
        Ok(query) => push_query(alloc, &mut text, &query)?,
        Err(fault) => text.push_str(refusal(alloc, &fault)?.as_str())?,
    }
    Ok(text)
}

fn batch_refusal(alloc: Global, fault: &BatchFault) -> Result<String, Memory> {
    let why = refusal(alloc, &fault.fault)?;
    match fault.index {
        Some(index) => Ok(format!(in alloc; "query {}: {}", index, why)?),
        None => Ok(why),
    }
}

fn batch_answer(alloc: Global, body: &str) -> Result<String, Memory> {
    let queries = match read_batch(alloc, body.as_bytes()) {
        Ok(queries) => queries,
        Err(fault) => return batch_refusal(alloc, &fault),
    };
    let mut text = format!(in alloc; "{} queries", queries.len())?;
    for query in &queries {
        text.push_str("; ")?;
        push_query(alloc, &mut text, query)?;
    }
    Ok(text)
}

fn copies_answer(alloc: Global, count: u32, query: &str) -> Result<String, Memory> {
    let mut body = String::from_str(alloc, "{\"queries\":[")?;
    for number in 0..count {
        if 0 < number {
            body.push(',')?;
        }
        body.push_str(query)?;
    }
    body.push_str("]}")?;
    match read_batch(alloc, body.as_str().as_bytes()) {
        Ok(queries) => Ok(format!(in alloc; "{} queries", queries.len())?),
        Err(fault) => batch_refusal(alloc, &fault),
    }
}

fn copies_line(alloc: Global, line: &str) -> Result<String, Memory> {
    let Some((count, query)) = line.split_once('|') else {
        return Ok(String::from_str(alloc, "no query")?);
    };
    match count.parse::<u32>() {
        Ok(count) => copies_answer(alloc, count, query),
        Err(_) => Ok(String::from_str(alloc, "no count")?),
    }
}

fn line_answer(alloc: Global, line: &str) -> Result<String, Memory> {
    match line.split_once('|') {
        Some(("query", body)) => query_answer(alloc, body),
        Some(("batch", body)) => batch_answer(alloc, body),
        Some(("copies", rest)) => copies_line(alloc, rest),
        _ => Ok(String::from_str(alloc, "no kind of line")?),
    }
}

fn main(rt: HostRuntime) -> io::Result<()> {
    for line in rt.lines(rt.alloc()) {
        match line_answer(rt.alloc(), line?.as_str()) {
            Ok(answer) => println!(rt; "{}", answer)?,
            Err(Memory) => println!(rt; "no memory")?,
        }
    }
    Ok(())
}
