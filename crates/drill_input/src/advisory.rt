ghost use Rattle.std.specs.Prelude.{◌≡◌, ◌<◌, ◌≤◌, ◌++◌, ◌∷◌, [], IfOk, OnOk, map, string_bytes};
ghost use Rattle.std.specs.Arc.{arc_value};
ghost use Rattle.drill_input.specs.Advisories.{advisories, advisory_read, event_part, events_part, git_part, id_part, limit, limit_part, name_part, picks, text, version_part};

use crate::draws::Draws;
use crate::text::push;
use osv_prim::{Memory, Oid};
use osv_record::{Buffers, Record};
use std::alloc::Global;
use std::sync::Arc;

/// What of an advisory is drawn: the number of its package, the minor version that fixes it, and the
/// commits of its GIT range.
#[derive(Clone, Copy)]
pub(crate) struct Chosen {
    pub(crate) name: u32,
    pub(crate) minor: u32,
    pub(crate) introduced: Oid,
    pub(crate) fixed: Oid,
    pub(crate) limit: Option<Oid>,
}

// One advisory in eight has a limit.
fn limit(draws: &mut Draws, size: u32) -> Option<Oid>
    requires { 0 < size }
    ensures { (result, draws.new) ≡ limit size draws.old }
{
    match draws.below(8) {
        0 => Some(draws.commit(size)),
        _ => None,
    }
}

fn picks(draws: &mut Draws, size: u32) -> Chosen
    requires { 0 < size }
    ensures { (result, draws.new) ≡ picks size draws.old }
{
    let name = draws.below(10);
    let minor = draws.below(100);
    let introduced = draws.commit(size);
    let fixed = draws.commit(size);
    let limit = limit(draws, size);
    Chosen {
        name,
        minor,
        introduced,
        fixed,
        limit,
    }
}

fn id_part(alloc: Global, number: u32) -> Result<String, Memory>
    ensures { IfOk result (λ t. string_bytes t ≡ id_part number) }
{
    Ok(format!(in alloc;
        "{{\"id\":\"DRILL-{number}\",\"modified\":\"2024-01-01T00:00:00Z\",\"affected\":["
    )?)
}

fn name_part(alloc: Global, name: u32) -> Result<String, Memory>
    ensures { IfOk result (λ t. string_bytes t ≡ name_part name) }
{
    Ok(format!(in alloc; "{{\"package\":{{\"ecosystem\":\"npm\",\"name\":\"p{name}\"}},")?)
}

// The range of versions.
fn version_part(alloc: Global, minor: u32) -> Result<String, Memory>
    ensures { IfOk result (λ t. string_bytes t ≡ version_part minor) }
{
    Ok(format!(in alloc;
        "\"ranges\":[{{\"type\":\"SEMVER\",\"events\":[{{\"introduced\":\"0\"}},{{\"fixed\":\"1.{minor}.0\"}}]}},"
    )?)
}

fn push_event(out: &mut Vec<u8>, before: &[u8], id: Oid) -> Result<(), Memory>
    ensures { OnOk result (out.new.items ≡ out.old.items ++ event_part before.now id) }
{
    push(out, before)?;
    push(out, id.write().as_slice())?;
    push(out, b"\"}")
}

fn push_limit(out: &mut Vec<u8>, limit: Option<Oid>) -> Result<(), Memory>
    ensures { OnOk result (out.new.items ≡ out.old.items ++ limit_part limit) }
{
    match limit {
        None => Ok(()),
        Some(limit) => push_event(out, b",{\"limit\":\"", limit),
    }
}

fn push_events(out: &mut Vec<u8>, picks: &Chosen) -> Result<(), Memory>
    ensures { OnOk result (out.new.items ≡ out.old.items ++ events_part picks.now) }
{
    push_event(out, b"{\"introduced\":\"", picks.introduced)?;
    push_event(out, b",{\"fixed\":\"", picks.fixed)?;
    push_limit(out, picks.limit)
}

// The GIT range, and what stands behind it.
fn push_git(out: &mut Vec<u8>, picks: &Chosen) -> Result<(), Memory>
    ensures { OnOk result (out.new.items ≡ out.old.items ++ git_part picks.now) }
{
    push(
        out,
        b"{\"type\":\"GIT\",\"repo\":\"https://drill.example/r\",\"events\":[",
    )?;
    push_events(out, picks)?;
    push(out, b"]}]}]}")
}

fn text(alloc: Global, number: u32, picks: &Chosen) -> Result<Vec<u8>, Memory>
    ensures { IfOk result (λ t. t.items ≡ text number picks.now) }
{
    let mut text = id_part(alloc, number)?.into_bytes();
    push(&mut text, name_part(alloc, picks.name)?.as_bytes())?;
    push(&mut text, version_part(alloc, picks.minor)?.as_bytes())?;
    push_git(&mut text, picks)?;
    Ok(text)
}

// A text of this form is an advisory, which tests show and nothing here proves: a refusal would end a
// drill as want of memory does.
fn advisory(
    alloc: Global,
    draws: &mut Draws,
    size: u32,
    number: u32,
    buffers: &mut Buffers,
) -> Result<Record, Memory>
    requires { 0 < size }
    ensures read { IfOk result (λ r. advisory_read (text number (picks size draws.old).0) ≡ r ∷ []) }
    ensures draws { draws.new ≡ (picks size draws.old).1 }
{
    let picks = picks(draws, size);
    let text = text(alloc, number, &picks)?;
    match Record::read_in(alloc, text.as_slice(), buffers) {
        Ok(record) => Ok(record),
        Err(_) => Err(Memory),
    }
}

/// The first `size` advisories of a drill, behind its `size` commits. Only memory can fail.
pub fn advisories(alloc: Global, draws: &mut Draws, size: u32) -> Result<Vec<Arc<Record>>, Memory>
    ensures { IfOk result (λ list. (map (λ a. arc_value a) list.items, draws.new) ≡ advisories size size draws.old) }
{
    let mut buffers = Buffers::new(alloc);
    let mut list = Vec::with_capacity(alloc, size as usize)?;
    for number in 0..size {
        let record = advisory(alloc, draws, size, number, &mut buffers)?;
        list.push(Arc::new(alloc, record)?)?;
    }
    Ok(list)
}
