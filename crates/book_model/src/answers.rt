/// The answer to a caller for whom no number is left: 2^63 were given.
#[derive(Clone, Copy, Debug, PartialEq, Eq)]
pub struct CallersSpent;

/// Why an advisory is not imported.
#[derive(Clone, Copy, Debug, PartialEq, Eq)]
pub enum ImportFault {
    /// The entries weigh `used` bytes, and with this one they would weigh more than `limit`, which the
    /// settings allow.
    JournalFull { used: u64, limit: u64 },
    /// There is no memory.
    Memory,
}

/// Why rows are not added to the graph of a repository. The causes are tested in this order.
#[derive(Clone, Copy, Debug, PartialEq, Eq)]
pub enum GrowFault {
    /// The graph was made over the first `seen` Grows of the repository, which has `now` of them.
    RepoMoved { seen: u64, now: u64 },
    /// As for an advisory.
    JournalFull { used: u64, limit: u64 },
    /// There is no memory.
    Memory,
}

/// What a caller that wants a snapshot of some imports gets; `J` is a job.
#[derive(Debug, Drop)]
pub enum Pulled<J> {
    /// The newest snapshot has them already: its number, and how many imports it is of.
    Reached { snapshot: u64, upto: u64 },
    /// A job of the build that is open.
    Job(J),
    /// Each job of the build's phase is out, `out` of them, or done.
    Out { out: u64 },
}

/// What a caller that asks for work gets; `J` is a job.
#[derive(Debug, Drop)]
pub enum Taken<J> {
    /// A job of the build that is open.
    Job(J),
    /// No build is open, or none of its jobs is free: `out` of them are out.
    Nothing { out: u64 },
}

/// What a job came to that was done.
#[derive(Clone, Copy, Debug, PartialEq, Eq)]
pub enum Progress {
    /// The build goes on.
    Going,
    /// It was the build's last job: the place of the publication among the entries, and the number of
    /// its snapshot.
    Published { entry: u64, snapshot: u64 },
}

/// The answer where a job isn't out to the caller: the number of the snapshot that it was to make, and
/// the caller that has it, if any.
#[derive(Clone, Copy, Debug, PartialEq, Eq)]
pub struct Strange {
    pub build: u64,
    pub owner: Option<u64>,
}

/// The newest snapshot, with its number.
#[derive(Debug, Drop)]
pub struct Newest<S> {
    pub number: u64,
    pub snapshot: S,
}

/// What a snapshot's number finds.
#[derive(Debug, Drop)]
pub enum Kept<S> {
    /// The snapshot.
    Here(S),
    /// It is kept no longer; the oldest that is.
    Gone { oldest: u64 },
    /// It isn't published yet; the newest that is.
    Ahead { newest: u64 },
}
