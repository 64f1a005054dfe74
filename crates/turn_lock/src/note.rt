// What turns leave beside the history.

/// The answers of a stored value that its history doesn't show.
#[derive(Clone, Copy, Debug, PartialEq, Eq)]
pub enum Noted {
    /// There was none yet.
    Plain,
    /// All work that could be given is out.
    Out,
    /// There was no work to give.
    Nothing,
    /// What was handed in isn't out to the caller.
    Strange,
    /// No caller number is left.
    CallersSpent,
}

/// The note of a stored value: its last answer that the history doesn't show, and to whom it was given.
#[derive(Clone, Copy, Debug, PartialEq, Eq)]
pub struct Note {
    /// How many such answers there were. It stays at 2^64 - 1.
    pub serial: u64,
    /// The caller that was answered, 0 where it has no number yet.
    pub by: u64,
    /// What the answer counts or names: how much is out, which build, or how many numbers were given.
    pub number: u64,
    /// Who has what was handed in and was strange, if anybody has it.
    pub owner: Option<u64>,
    /// Which answer it was.
    pub kind: Noted,
}

/// What a pass keeps of its turns.
#[derive(Clone, Copy, Debug, PartialEq, Eq)]
pub struct Last {
    /// How many turns there were. It stays at 2^64 - 1.
    pub turned: u64,
    /// The note that the last turn found.
    pub found: Note,
    /// The note that it left.
    pub left: Note,
}
