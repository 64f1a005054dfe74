ghost use Rattle.std.specs.Prelude.{◌≡◌, ◌∷◌, [], ◌↔◌, IsTrue, IsSome, IfSome, IfNone, length, option_map, is_some, drop, true};
ghost use Rattle.serde_json.specs.Find.{as_str, as_object};
ghost use Rattle.json.specs.Token.{begin_array};
ghost use Rattle.json_view.specs.Trees.{reading, shown_reading, tokens_from};
ghost use Rattle.json_view.specs.Json.{named, as_list};

use crate::walk::{count_items, last_named, node_at, take_item};
use json::Tape;

/// A value in a JSON text. Contracts see it by `node_value`.
#[derive(Clone, Copy)]
pub struct Node<'t, 'a> {
    tape: &'t Tape<'a>,
    at: usize,
    ghost begins: { is_some (reading (drop at tape.now)) ≡ true },
}

impl<'t, 'a> Node<'t, 'a> {
    ghost use Rattle.json_view.specs.Views.{node_value, element_values};

    pub(crate) fn new(tape: &'t Tape<'a>, at: usize) -> Node<'t, 'a>
        requires { is_some (reading (drop at tape.now)) ≡ true }
        ensures { node_value result ≡ shown_reading (reading (drop at tape.now)) }
    {
        Node { tape, at }
    }

    /// Whether it is an object.
    pub fn is_object(&self) -> bool
        ensures { IsTrue result ↔ IsSome (as_object (node_value self.now)) }
    {
        if let json::Node::Object(_) = node_at(self.tape, self.at) {
            true
        } else {
            false
        }
    }

    /// What an object has under a name, where that is not null. Of equal keys the last counts. It
    /// walks the object's members.
    pub fn member(&self, name: &str) -> Option<Node<'t, 'a>>
        ensures { option_map node_value result ≡ named name.now (node_value self.now) }
    {
        let json::Node::Object(_) = node_at(self.tape, self.at) else {
            return None;
        };
        let Some(at) = last_named(self.tape, self.at + 1, name) else {
            return None;
        };
        if let json::Node::Null = node_at(self.tape, at) {
            return None;
        }
        Some(Node {
            tape: self.tape,
            at,
        })
    }

    /// The text that it is.
    pub fn as_str(&self) -> Option<&'a str>
        ensures { option_map (λ s. s.now) result ≡ as_str (node_value self.now) }
    {
        if let json::Node::String(text) = node_at(self.tape, self.at) {
            Some(text)
        } else {
            None
        }
    }

    /// The elements of the array that it is.
    pub fn elements(&self) -> Option<Elements<'t, 'a>>
        ensures { option_map element_values result ≡ as_list (node_value self.now) }
    {
        if let json::Node::Array(_) = node_at(self.tape, self.at) {
            Some(Elements {
                tape: Some(self.tape),
                at: self.at + 1,
            })
        } else {
            None
        }
    }
}

/// The elements of an array that are still to come. Contracts see them by `element_values`.
#[derive(Drop)]
pub struct Elements<'t, 'a> {
    tape: Option<&'t Tape<'a>>,
    at: usize,
    ghost begins: { is_some (reading (begin_array ∷ tokens_from tape at)) ≡ true },
}

impl<'t, 'a> Elements<'t, 'a> {
    ghost use Rattle.json_view.specs.Views.{node_value, element_values};

    /// The elements of an empty array.
    pub fn none() -> Elements<'t, 'a>
        ensures { element_values result ≡ [] }
    {
        Elements { tape: None, at: 0 }
    }

    /// How many are still to come. It walks them.
    pub fn len(&self) -> usize
        ensures { result ≡ length (element_values self.now) }
    {
        match self.tape {
            Some(tape) => count_items(tape, self.at),
            None => 0,
        }
    }

    /// Takes the next one.
    pub fn next(&mut self) -> Option<Node<'t, 'a>>
        ensures some { IfSome result (λ n. element_values self.old ≡ node_value n ∷ element_values self.new) }
        ensures none { IfNone result (element_values self.old ≡ []) }
    {
        let Some(tape) = self.tape else {
            return None;
        };
        let mut at = self.at;
        let Some(here) = take_item(tape, &mut at) else {
            return None;
        };
        *self = Elements {
            tape: Some(tape),
            at,
        };
        Some(Node { tape, at: here })
    }
}
