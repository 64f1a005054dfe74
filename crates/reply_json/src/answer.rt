ghost use Rattle.std.specs.Prelude.{◌≡◌, ◌++◌, OnOk, codes, map, flat_map, option_map, slice_get};
ghost use Rattle.std.specs.Arc.{arc_value};
ghost use Rattle.reply_json.specs.Answers.{advisory_text, answer_body, answer_in, batch_body, behind_comma, listed, next_page, page_text, token_behind};

use crate::writing::{push, push_number};
use osv_prim::Memory;
use osv_record::Record;
use std::sync::Arc;

/// What a query is answered with.
#[derive(Drop)]
pub struct Answer<'a> {
    /// The snapshot that the page is of.
    pub snapshot: u64,
    /// The advisories of the page, ascending by id.
    pub found: Vec<&'a Arc<Record>>,
    /// Whether hits remain behind them.
    pub more: bool,
}

// How an advisory stands in a reply: all its bytes, or its id and the time that it was modified.
#[derive(Clone, Copy)]
pub enum Form {
    Whole,
    Brief,
}

fn push_brief(out: &mut Vec<u8>, advisory: &Record) -> Result<(), Memory>
    ensures { OnOk result (out.new.items ≡ out.old.items ++ advisory_text Form.Brief advisory.now) }
{
    push(out, b"{\"id\":\"")?;
    push(out, advisory.id.as_str().as_bytes())?;
    push(out, b"\",\"modified\":\"")?;
    push(out, advisory.modified_text.as_bytes())?;
    push(out, b"\"}")
}

fn push_advisory(out: &mut Vec<u8>, form: Form, advisory: &Record) -> Result<(), Memory>
    ensures { OnOk result (out.new.items ≡ out.old.items ++ advisory_text form advisory.now) }
{
    match form {
        Form::Whole => push(out, advisory.text.as_slice()),
        Form::Brief => push_brief(out, advisory),
    }
}

fn push_advisory_behind_comma(
    out: &mut Vec<u8>,
    form: Form,
    advisory: &Record,
) -> Result<(), Memory>
    ensures { OnOk result (out.new.items ≡ out.old.items ++ behind_comma (advisory_text form advisory.now)) }
{
    push(out, b",")?;
    push_advisory(out, form, advisory)
}

fn push_others(out: &mut Vec<u8>, form: Form, advisories: &[&Arc<Record>]) -> Result<(), Memory>
    ensures { OnOk result (out.new.items ≡ out.old.items ++ flat_map behind_comma (map (advisory_text form) (map (λ a. arc_value a.now) advisories.now))) }
{
    let mut rest = advisories;
    while let [advisory, after @ ..] = rest {
        push_advisory_behind_comma(out, form, advisory)?;
        rest = after;
    }
    Ok(())
}

fn push_token(out: &mut Vec<u8>, snapshot: u64, last: Option<&Arc<Record>>) -> Result<(), Memory>
    ensures { OnOk result (out.new.items ≡ out.old.items ++ token_behind snapshot (option_map (λ a. arc_value a.now) last.entry)) }
{
    let Some(last) = last else {
        return Ok(());
    };
    push(out, b",\"next_page_token\":\"")?;
    push_number(out, snapshot)?;
    push(out, b"~")?;
    push(out, last.id.as_str().as_bytes())?;
    push(out, b"\"")
}

fn push_next_page(out: &mut Vec<u8>, answer: &Answer) -> Result<(), Memory>
    ensures { OnOk result (out.new.items ≡ out.old.items ++ next_page (answer_in answer.now)) }
{
    if answer.more {
        push_token(
            out,
            answer.snapshot,
            answer.found.as_slice().last().copied(),
        )
    } else {
        Ok(())
    }
}

fn push_page(out: &mut Vec<u8>, form: Form, answer: &Answer) -> Result<(), Memory>
    ensures { OnOk result (out.new.items ≡ out.old.items ++ page_text form (answer_in answer.now)) }
{
    let [first, others @ ..] = answer.found.as_slice() else {
        return push(out, b"{}");
    };
    push(out, b"{\"vulns\":[")?;
    push_advisory(out, form, first)?;
    push_others(out, form, others)?;
    push(out, b"]")?;
    push_next_page(out, answer)?;
    push(out, b"}")
}

fn push_page_behind_comma(out: &mut Vec<u8>, answer: &Answer) -> Result<(), Memory>
    ensures { OnOk result (out.new.items ≡ out.old.items ++ behind_comma (page_text Form.Brief (answer_in answer.now))) }
{
    push(out, b",")?;
    push_page(out, Form::Brief, answer)
}

fn push_other_pages(out: &mut Vec<u8>, answers: &[Answer]) -> Result<(), Memory>
    ensures { OnOk result (out.new.items ≡ out.old.items ++ flat_map behind_comma (map (page_text Form.Brief) (map answer_in answers.now))) }
{
    let mut rest = answers;
    while let [answer, after @ ..] = rest {
        push_page_behind_comma(out, answer)?;
        rest = after;
    }
    Ok(())
}

fn push_pages(out: &mut Vec<u8>, answers: &[Answer]) -> Result<(), Memory>
    ensures { OnOk result (out.new.items ≡ out.old.items ++ listed (map (page_text Form.Brief) (map answer_in answers.now))) }
{
    let [first, others @ ..] = answers else {
        return Ok(());
    };
    push_page(out, Form::Brief, first)?;
    push_other_pages(out, others)
}

// Bytes enough for the answer, so that its buffer is taken once.
fn room_for(answer: &Answer) -> usize {
    let token = 256usize;
    answer.found.as_slice().iter().fold(
        token,
        |sum, advisory| sum.saturating_add(advisory.text.len()).saturating_add(1),
    )
}

// Puts the pages, and the end of the batch.
fn push_all_pages(out: &mut Vec<u8>, answers: &[Answer]) -> Result<(), Memory>
    ensures { OnOk result (out.new.items ≡ out.old.items ++ (listed (map (page_text Form.Brief) (map answer_in answers.now)) ++ codes "]}")) }
{
    push_pages(out, answers)?;
    push(out, b"]}")
}

/// Puts the body of the reply to a query (OSV.dev API v1, "POST /v1/query") behind what `out` has: the advisories'
/// bytes as they came in, and the page token where hits remain. Of an empty page it is `{}`.
pub fn put_answer(out: &mut Vec<u8>, answer: &Answer) -> Result<(), Memory>
    ensures { OnOk result (out.new.items ≡ out.old.items ++ answer_body (answer_in answer.now)) }
{
    out.reserve(room_for(answer))?;
    push_page(out, Form::Whole, answer)
}

/// Puts the body of the reply to a batch (OSV.dev API v1, "POST /v1/querybatch") behind what `out` has: for each
/// query, in their order, the ids of its page and when the advisories were modified.
pub fn put_batch(out: &mut Vec<u8>, answers: &[Answer]) -> Result<(), Memory>
    ensures { OnOk result (out.new.items ≡ out.old.items ++ batch_body (map answer_in answers.now)) }
{
    push(out, b"{\"results\":[")?;
    push_all_pages(out, answers)
}
