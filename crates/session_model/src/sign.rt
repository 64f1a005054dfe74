/// What a reply owes to the book beside the history.
#[derive(Clone, Copy, Debug, PartialEq, Eq)]
pub enum Sign {
    /// Nothing.
    Plain,
    /// A snapshot was looked at.
    Looked,
    /// A repository had grown `seen` times when it was looked at, and more often when it was to grow.
    Moved { seen: u64 },
    /// A snapshot, by its number, and how many imports it is of.
    Published { snapshot: u64, upto: u64 },
    /// A build is under way: how many of its jobs are out, 0 where the turns were used up, and how many
    /// turns this request took.
    Building { out: u64, took: u64 },
}
