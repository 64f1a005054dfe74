// What a pass knows, as contracts see it.

use std::collections::LinkedList;

/// What the lock's rule knows of a pass. No value of it is made.
pub struct View<E, F> {
    /// The history that it has seen.
    pub seen: LinkedList<E>,
    /// The part of the value that no call changes. A pass that was joined to another knows none.
    pub fixed: Option<F>,
    /// Its ticket, while it waits or has the turn.
    pub ticket: Option<u64>,
    /// Whether it has the turn.
    pub has_turn: bool,
    /// How many caller numbers it knows to be given, while it has the turn.
    pub callers: u64,
    /// Its own caller number.
    pub number: Option<u64>,
    /// What a pass that is being joined to it had seen.
    pub joined_seen: LinkedList<E>,
}
