//! Steps over the nodes of a text.

ghost use Rattle.std.specs.Prelude.{◌≡◌, ◌<◌, ◌+◌, ◌^◌, ◌∷◌, ℕ, List, Some, OnSome, IfSome, length, drop, option_map};
ghost use Rattle.json.specs.Token.{Token};
ghost use Rattle.json.specs.Json.{Json, Items, Members, value};
ghost use Rattle.json.specs.Tape.{node_token};
ghost use Rattle.json.specs.Find.{BeginsWith, NextItem, NextMember, InItems, InMembers, Finds, get_member};
ghost use Rattle.json_view.specs.Json.{list_of};
ghost use Rattle.json_view.specs.Trees.{shown_items};

use json::{Node, Tape};

/// The node at an index where a value begins.
#[inline(always)]
pub fn node_at<'a>(tape: &Tape<'a>, at: usize) -> Node<'a>
    ensures value { (j : Json) → BeginsWith (drop at tape.now) j → drop at tape.now ≡ node_token result ∷ drop (at + 1) tape.now }
    ensures within { (j : Json) → BeginsWith (drop at tape.now) j → (at < length tape.now) × (length tape.now < 2 ^ 64) }
{
    let nodes = tape.nodes();
    if at < nodes.len() {
        nodes[at]
    } else {
        Node::Null
    }
}

// The index after the value that begins at that one.
#[inline(always)]
fn after(tape: &Tape, at: usize) -> usize
    requires { at < length tape.now }
    ensures value { (depth : ℕ) (j : Json) (rest : List Token) → value depth (drop at tape.now) ≡ Some (j, rest) → rest ≡ drop result tape.now }
    ensures later { at < result }
{
    match tape.nodes()[at] {
        Node::Object(end) | Node::Array(end) => end,
        _ => at + 1,
    }
}

/// Takes the next item: where it begins.
#[inline(always)]
pub fn take_item(tape: &Tape, at: &mut usize) -> Option<usize>
    ensures value { NextItem (drop at.old tape.now) (option_map (λ i. drop i tape.now) result) (drop at.new tape.now) }
    ensures later { OnSome result ((at.old < at.new) × (at.old < length tape.now) × (length tape.now < 2 ^ 64)) }
    ensures here { IfSome result (λ i. i ≡ at.old) }
{
    let nodes = tape.nodes();
    let here = *at;
    if here >= nodes.len() {
        return None;
    }
    if let Node::EndArray = nodes[here] {
        return None;
    }
    *at = after(tape, here);
    Some(here)
}

/// How many items there are from `start` on.
pub fn count_items(tape: &Tape, start: usize) -> usize
    ensures { (js : Items) → InItems (drop start tape.now) js → result ≡ length (list_of (shown_items js)) }
{
    let mut at = start;
    let mut count = 0;
    while let Some(_) = take_item(tape, &mut at) {
        count += 1;
    }
    count
}

// Takes the next member: its name, and where its value begins.
#[inline(always)]
fn take_member<'a>(tape: &Tape<'a>, at: &mut usize) -> Option<(&'a str, usize)>
    ensures value { NextMember (drop at.old tape.now) (option_map (λ m. (m.0.now, drop m.1 tape.now)) result) (drop at.new tape.now) }
    ensures later { OnSome result ((at.old < at.new) × (at.old < length tape.now)) }
{
    let nodes = tape.nodes();
    let here = *at;
    if here >= nodes.len().saturating_sub(1) {
        return None;
    }
    let Node::Key(key) = nodes[here] else {
        return None;
    };
    *at = after(tape, here + 1);
    Some((key, here + 1))
}

/// Where the value of the last member of that name begins, among those from `start` on.
pub fn last_named(tape: &Tape, start: usize, name: &str) -> Option<usize>
    ensures { (ms : Members) → InMembers (drop start tape.now) ms → Finds (option_map (λ i. drop i tape.now) result) (get_member name.now ms) }
{
    let mut at = start;
    let mut found = None;
    while let Some((key, value)) = take_member(tape, &mut at) {
        if key == name {
            found = Some(value);
        }
    }
    found
}
