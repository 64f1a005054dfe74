/// Where an event of a range stands among the versions of one order. Bounds are ordered as their
/// variants, and values among themselves.
#[derive(Debug, PartialEq, Eq, PartialOrd, Ord, Drop)]
pub enum Bound<T> {
    /// Before every version: an `introduced` of `0`.
    Lowest,
    /// At a version.
    At(T),
    /// After every version: a `limit` of `*`.
    Endless,
}
