//! What of a JSON value is expected at a place, or its refusal.

ghost use Rattle.std.specs.Prelude.{◌≡◌, option_map};
ghost use Rattle.serde_json.specs.Find.{as_str};
ghost use Rattle.osv_prim.specs.Results.{Gives, or_refuse};
ghost use Rattle.json_view.specs.Views.{node_value, element_values};
ghost use Rattle.osv_record.specs.Reading.{when, is_object, full_text, list_or_none};

use crate::fault::{Member, RecordFault};
use json_view::{Elements, Node};
use osv_prim::Stop;

pub fn object_or(node: Node, fault: RecordFault) -> Result<(), Stop<RecordFault>>
    ensures { Gives (λ _. node_value node.entry) result (when (is_object (node_value node.entry)) fault (node_value node.entry)) }
{
    if node.is_object() {
        Ok(())
    } else {
        Err(Stop::Refused(fault))
    }
}

pub fn text_or<'a>(node: Node<'_, 'a>, fault: RecordFault) -> Result<&'a str, Stop<RecordFault>>
    ensures { Gives (λ s. s.now) result (or_refuse fault (as_str (node_value node.entry))) }
{
    match node.as_str() {
        Some(text) => Ok(text),
        None => Err(Stop::Refused(fault)),
    }
}

// A text that is there and is not empty.
#[tactic(auto, unfolding(crate::specs::Reading::full_text))]
pub fn full_text<'a>(
    found: Option<Node<'_, 'a>>,
    fault: RecordFault,
) -> Result<&'a str, Stop<RecordFault>>
    ensures { Gives (λ s. s.now) result (full_text fault (option_map node_value found.entry)) }
{
    let Some(node) = found else {
        return Err(Stop::Refused(fault));
    };
    let text = text_or(node, fault)?;
    if text.is_empty() {
        return Err(Stop::Refused(fault));
    }
    Ok(text)
}

// The elements of a list, or none where nothing is there.
pub fn list_or_none<'t, 'a>(
    found: Option<Node<'t, 'a>>,
    member: Member,
) -> Result<Elements<'t, 'a>, Stop<RecordFault>>
    ensures { Gives element_values result (list_or_none member (option_map node_value found.entry)) }
{
    let Some(node) = found else {
        return Ok(Elements::none());
    };
    match node.elements() {
        Some(elements) => Ok(elements),
        None => Err(Stop::Refused(RecordFault::WrongType(member))),
    }
}
