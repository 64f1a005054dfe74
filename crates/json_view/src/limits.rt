//! Whether `serde_json` reads a text that is JSON.

ghost use Rattle.std.specs.Prelude.{◌≡◌, ◌≤◌, ◌↔◌, IsTrue, true};
ghost use Rattle.json.specs.Json.{Json};
ghost use Rattle.json.specs.Tape.{node_token};
ghost use Rattle.json.specs.Tree.{json_tokens, depth};
ghost use Rattle.serde_json.specs.Read.{max_depth};
ghost use Rattle.json_view.specs.Trees.{fits, depth_after};

use crate::numbers::number_fits;
use json::{Node, Tape};

// How deep arrays and objects may nest.
const MOST_DEPTH: usize = 127;

/// Whether arrays and objects nest no deeper than 127, and a 64-bit float can hold each number.
pub fn is_within(tape: &Tape) -> bool
    ensures { (j : Json) → tape.now ≡ json_tokens j → (IsTrue result ↔ ((depth j ≤ max_depth) × (fits j ≡ true))) }
{
    let mut depth = 0;
    for node in tape.nodes() {
        let Some(next) = depth_after(depth, node) else {
            return false;
        };
        depth = next;
    }
    true
}

#[inline(always)]
fn depth_after(depth: usize, node: &Node) -> Option<usize>
    ensures { result ≡ depth_after depth (node_token node.now) }
{
    match node {
        Node::Object(_) | Node::Array(_) => if depth < MOST_DEPTH {
            Some(depth + 1)
        } else {
            None
        },
        Node::EndObject | Node::EndArray => Some(depth.saturating_sub(1)),
        Node::Number(text) => if number_fits(text) { Some(depth) } else { None },
        _ => Some(depth),
    }
}
