ghost use Rattle.std.specs.Prelude.{◌≡◌, ℕ, List, option_map};
ghost use Rattle.serde_json.specs.Find.{as_object};
ghost use Rattle.osv_prim.specs.Results.{Gives, each, or_refuse};
ghost use Rattle.json_view.specs.Json.{json};
ghost use Rattle.json_view.specs.Views.{document_value, node_value, element_values};
ghost use Rattle.osv_record.specs.Parts.{of_parts};
ghost use Rattle.osv_record.specs.Reading.{advisory, record_of, affected_of, entry_of, version_of, id_of, modified_of, time_from, withdrawn_of};

use crate::fault::{Member, RecordFault};
use crate::members::{list_or_none, object_or, text_or};
use crate::packages::package_of;
use crate::ranges::ranges_of;
use crate::record::{Affected, Record};
use json_view::{Buffers, Document, Elements, JsonFault, Node};
use osv_prim::{Bytes, Id, IdFault, List, Lists, Stop, Text};
use std::alloc::Global;

const MOST_BYTES: usize = 16_777_216;

#[tactic(auto, unfolding(crate::specs::Reading::id_of))]
fn id_of(alloc: Global, found: Option<Node>) -> Result<Id, Stop<RecordFault>>
    ensures { Gives (λ i. i) result (id_of (option_map node_value found.entry)) }
{
    let Some(node) = found else {
        return Err(Stop::Refused(RecordFault::NoId));
    };
    match Id::read(alloc, text_or(node, RecordFault::BadId)?) {
        Ok(id) => Ok(id),
        Err(IdFault::BadId) => Err(Stop::Refused(RecordFault::BadId)),
        Err(IdFault::Memory) => Err(Stop::Memory),
    }
}

// A time, and its text.
#[derive(Clone, Copy)]
struct Time<'a> {
    nanos: i128,
    text: &'a str,
}

#[tactic(auto, unfolding(crate::specs::Reading::time_from))]
fn time_from<'a>(node: Node<'_, 'a>, fault: RecordFault) -> Result<Time<'a>, Stop<RecordFault>>
    ensures { Gives (λ t. (t.nanos, t.text.now)) result (time_from fault (node_value node.entry)) }
{
    let text = text_or(node, fault)?;
    match osv_time::read(text) {
        Some(nanos) => Ok(Time { nanos, text }),
        None => Err(Stop::Refused(fault)),
    }
}

#[tactic(auto, unfolding(crate::specs::Reading::modified_of))]
fn modified_of<'a>(found: Option<Node<'_, 'a>>) -> Result<Time<'a>, Stop<RecordFault>>
    ensures { Gives (λ t. (t.nanos, t.text.now)) result (modified_of (option_map node_value found.entry)) }
{
    match found {
        Some(node) => time_from(node, RecordFault::BadModified),
        None => Err(Stop::Refused(RecordFault::NoModified)),
    }
}

#[tactic(auto, unfolding(crate::specs::Reading::withdrawn_of))]
fn withdrawn_of(found: Option<Node>) -> Result<bool, Stop<RecordFault>>
    ensures { Gives (λ b. b) result (withdrawn_of (option_map node_value found.entry)) }
{
    let Some(node) = found else {
        return Ok(false);
    };
    time_from(node, RecordFault::WrongType(Member::Withdrawn))?;
    Ok(true)
}

#[tactic(auto, unfolding(crate::specs::Reading::version_of))]
fn version_of<'a>(node: Node<'_, 'a>) -> Result<&'a str, Stop<RecordFault>>
    ensures { Gives (λ t. t.now) result (version_of (node_value node.entry)) }
{
    text_or(node, RecordFault::WrongType(Member::Version))
}

// How many texts are among elements, and how many bytes they have.
#[derive(Clone, Copy)]
struct Size {
    texts: usize,
    bytes: usize,
}

fn size_of(mut elements: Elements) -> Size {
    let mut size = Size { texts: 0, bytes: 0 };
    while let Some(node) = elements.next() {
        size.texts = size.texts.saturating_add(1);
        size.bytes = size
            .bytes
            .saturating_add(node.as_str().map_or(0, |text| text.len()));
    }
    size
}

// The versions among elements, in room for so many.
fn versions_of(
    alloc: Global,
    mut elements: Elements,
    size: Size,
) -> Result<Lists<u8>, Stop<RecordFault>>
    ensures { Gives (λ l. l) result (each version_of (element_values elements.entry)) }
{
    let mut versions = Lists::with_capacity(alloc, size.texts, size.bytes)?;
    while let Some(node) = elements.next() {
        versions.push(version_of(node)?.as_bytes())?;
    }
    Ok(versions)
}

#[tactic(auto, unfolding(crate::specs::Reading::entry_of))]
fn entry_of(alloc: Global, node: Node) -> Result<Affected, Stop<RecordFault>>
    ensures { Gives (λ a. a) result (entry_of (node_value node.entry)) }
{
    object_or(node, RecordFault::WrongType(Member::Entry))?;
    let package = package_of(alloc, node.member("package"))?;
    let ranges = ranges_of(alloc, list_or_none(node.member("ranges"), Member::Ranges)?)?;
    let listed = node.member("versions");
    let size = size_of(list_or_none(listed, Member::Versions)?);
    let versions = versions_of(alloc, list_or_none(listed, Member::Versions)?, size)?;
    Ok(Affected::new(package, ranges, versions)?)
}

fn entries_of(alloc: Global, mut elements: Elements) -> Result<List<Affected>, Stop<RecordFault>>
    ensures { Gives (λ l. l) result (each entry_of (element_values elements.entry)) }
{
    let mut entries = List::with_capacity(alloc, elements.len())?;
    while let Some(node) = elements.next() {
        entries.push(entry_of(alloc, node)?)?;
    }
    Ok(entries)
}

#[tactic(auto, unfolding(crate::specs::Reading::affected_of))]
fn affected_of(alloc: Global, found: Option<Node>) -> Result<List<Affected>, Stop<RecordFault>>
    ensures { Gives (λ l. l) result (affected_of (option_map node_value found.entry)) }
{
    entries_of(alloc, list_or_none(found, Member::Affected)?)
}

// What stands in an advisory, beside its bytes.
#[derive(Drop)]
pub(crate) struct Parts {
    pub(crate) id: Id,
    pub(crate) modified: i128,
    pub(crate) modified_text: Text,
    pub(crate) withdrawn: bool,
    pub(crate) affected: List<Affected>,
}

#[tactic(auto, unfolding(crate::specs::Reading::record_of))]
fn parts_of(alloc: Global, node: Node) -> Result<Parts, Stop<RecordFault>>
    ensures { (bytes : List ℕ) → Gives (of_parts bytes) result (record_of bytes (node_value node.entry)) }
{
    object_or(node, RecordFault::NotObject)?;
    let id = id_of(alloc, node.member("id"))?;
    let modified = modified_of(node.member("modified"))?;
    let withdrawn = withdrawn_of(node.member("withdrawn"))?;
    let affected = affected_of(alloc, node.member("affected"))?;
    let modified_text = Text::copy_of(alloc, modified.text)?;
    Ok(Parts {
        id,
        modified: modified.nanos,
        modified_text,
        withdrawn,
        affected,
    })
}

fn document_of<'a>(
    alloc: Global,
    bytes: &'a [u8],
    buffers: &'a mut Buffers,
) -> Result<Document<'a>, Stop<RecordFault>>
    ensures { Gives document_value result (or_refuse RecordFault.NotJson (json bytes.now)) }
{
    match Document::read(alloc, bytes, buffers) {
        Ok(document) => Ok(document),
        Err(JsonFault::NotJson) => Err(Stop::Refused(RecordFault::NotJson)),
        Err(JsonFault::Memory) => Err(Stop::Memory),
    }
}

#[tactic(auto, unfolding(crate::specs::Reading::advisory))]
fn parts_from(
    alloc: Global,
    bytes: &[u8],
    buffers: &mut Buffers,
) -> Result<Parts, Stop<RecordFault>>
    ensures { Gives (of_parts bytes.now) result (advisory bytes.now) }
{
    if bytes.len() > MOST_BYTES {
        return Err(Stop::Refused(RecordFault::TooLarge));
    }
    let document = document_of(alloc, bytes, buffers)?;
    parts_of(alloc, document.root())
}

// The advisory that bytes are, with a copy of them.
pub(crate) fn record_from(
    alloc: Global,
    bytes: &[u8],
    buffers: &mut Buffers,
) -> Result<Record, Stop<RecordFault>>
    ensures { Gives (λ r. r) result (advisory bytes.now) }
{
    let parts = parts_from(alloc, bytes, buffers)?;
    let text = Bytes::copy_of(alloc, bytes)?;
    Ok(Record::new(parts, text)?)
}

// The advisory that bytes are, which keeps them.
pub(crate) fn record_keeping(
    alloc: Global,
    text: Bytes,
    buffers: &mut Buffers,
) -> Result<Record, Stop<RecordFault>>
    ensures { Gives (λ r. r) result (advisory text) }
{
    let parts = parts_from(alloc, text.as_slice(), buffers)?;
    Ok(Record::new(parts, fitted(text))?)
}

// The same bytes, without the spare room of their block where it is more than an eighth of them.
fn fitted(text: Bytes) -> Bytes
    ensures { result ≡ text }
{
    let mut bytes = text.into_vec();
    let spare = bytes.capacity() - bytes.len();
    if spare > bytes.len() / 8 {
        bytes.shrink_to_fit();
    }
    Bytes::from_vec(bytes)
}
