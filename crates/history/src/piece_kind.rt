/// What a piece of a build has to do for a GIT range of an advisory: whether its set of affected commits
/// is there in the snapshot before, and is still that of the range.
#[derive(Clone, Copy, Debug, PartialEq, Eq)]
pub enum PieceKind {
    /// The advisory was imported since: the set is made anew.
    Fresh,
    /// The repository grew since, and the advisory was not imported: the set there is extended.
    Extend,
    /// Neither: the set there is carried on.
    Carry,
}
