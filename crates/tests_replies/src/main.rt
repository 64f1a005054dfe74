//! Reads lines of a word and its values, with a bar between each two, and prints the body of the reply that they ask
//! for: `page|SNAPSHOT|yes|ADVISORY|ADVISORY`, `batch|..` (that page, an empty one, and that page again),
//! `published|SNAPSHOT|UPTO` and the like; of a refusal its status, too.
#![tactic(auto)]

mod refused;

use osv_prim::Memory;
use osv_record::Record;
use refused::refusal_in;
use reply_json::{
    Answer, building_body, commits_body, entry_body, published_body, put_answer, put_batch,
    refusal_body,
};
use std::alloc::Global;
use std::io;
use std::sync::Arc;

/// The number that a text spells, or 0.
pub fn number(text: &str) -> u64 {
    match text.parse::<u64>() {
        Ok(number) => number,
        Err(_) => 0,
    }
}

/// The three texts that stand between two bars; those that are missing are empty.
pub fn values(text: &str) -> (&str, &str, &str) {
    let (first, rest) = text.split_once('|').unwrap_or((text, ""));
    let (second, third) = rest.split_once('|').unwrap_or((rest, ""));
    (first, second, third)
}

fn advisories_of(alloc: Global, texts: &str) -> Result<Vec<Arc<Record>>, Memory> {
    let mut advisories = Vec::new(alloc);
    for text in texts.split('|') {
        if let Ok(advisory) = Record::read(alloc, text.as_bytes()) {
            advisories.push(Arc::new(alloc, advisory)?)?;
        }
    }
    Ok(advisories)
}

fn answer_of<'a>(
    alloc: Global,
    snapshot: &str,
    more: &str,
    advisories: &'a [Arc<Record>],
) -> Result<Answer<'a>, Memory> {
    let mut found = Vec::with_capacity(alloc, advisories.len())?;
    for advisory in advisories {
        found.push(advisory)?;
    }
    Ok(Answer {
        snapshot: number(snapshot),
        found,
        more: more == "yes",
    })
}

fn page_of(alloc: Global, snapshot: &str, more: &str, texts: &str) -> Result<Vec<u8>, Memory> {
    let advisories = advisories_of(alloc, texts)?;
    let answer = answer_of(alloc, snapshot, more, advisories.as_slice())?;
    let mut body = Vec::new(alloc);
    put_answer(&mut body, &answer)?;
    Ok(body)
}

fn batch_body(alloc: Global, answers: &[Answer]) -> Result<Vec<u8>, Memory> {
    let mut body = Vec::new(alloc);
    put_batch(&mut body, answers)?;
    Ok(body)
}

fn pages_of(
    alloc: Global,
    snapshot: &str,
    more: &str,
    advisories: &[Arc<Record>],
) -> Result<Vec<u8>, Memory> {
    let mut answers = Vec::new(alloc);
    answers.push(answer_of(alloc, snapshot, more, advisories)?)?;
    answers.push(answer_of(alloc, snapshot, more, &[])?)?;
    answers.push(answer_of(alloc, snapshot, more, advisories)?)?;
    batch_body(alloc, answers.as_slice())
}

fn batch_of(alloc: Global, snapshot: &str, more: &str, texts: &str) -> Result<Vec<u8>, Memory> {
    let advisories = advisories_of(alloc, texts)?;
    pages_of(alloc, snapshot, more, advisories.as_slice())
}

fn body_in(alloc: Global, line: &str) -> Result<Vec<u8>, Memory> {
    let (word, rest) = line.split_once('|').unwrap_or((line, ""));
    let (first, second, third) = values(rest);
    match word {
        "page" => page_of(alloc, first, second, third),
        "batch" => batch_of(alloc, first, second, third),
        "no batch" => batch_body(alloc, &[]),
        "entry" => entry_body(alloc, number(first)),
        "commits" => commits_body(alloc, number(first), number(second)),
        "published" => published_body(alloc, number(first), number(second)),
        "building" => building_body(alloc, number(first), number(second)),
        _ => Ok(format!(in alloc; "no kind of line")?.into_bytes()),
    }
}

fn text_of(alloc: Global, body: &[u8]) -> Result<String, Memory> {
    match str::from_utf8(body) {
        Ok(text) => Ok(String::from_str(alloc, text)?),
        Err(_) => Ok(String::from_str(alloc, "no text")?),
    }
}

fn line_answer(alloc: Global, line: &str) -> Result<String, Memory> {
    let Some(refusal) = refusal_in(alloc, line) else {
        return text_of(alloc, body_in(alloc, line)?.as_slice());
    };
    let body = text_of(alloc, refusal_body(alloc, &refusal)?.as_slice())?;
    Ok(format!(in alloc; "{} {}", refusal.status(), body)?)
}

fn main(rt: HostRuntime) -> io::Result<()> {
    for line in rt.lines(rt.alloc()) {
        match line_answer(rt.alloc(), line?.as_str()) {
            Ok(answer) => println!(rt; "{}", answer)?,
            Err(Memory) => println!(rt; "no memory")?,
        }
    }
    Ok(())
}
