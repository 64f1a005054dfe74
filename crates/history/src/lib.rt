//! The history of a service, as contracts see it: the imports and publications of all callers, in one
//! order. A contract says what is published, and of which imports, in these words:
//!
//! ```
//! ghost use Rattle.history.specs.Entries.{newest, snap};
//! ghost use Rattle.history.specs.Prefixes.{records};
//! // the advisories that count in the newest snapshot of h: records (snap h (newest h))
//! ```
//!
//! The functions of `laws` do nothing; their contracts say how a history goes on.
#![tactic(auto)]

pub mod laws;
mod past;
mod piece_kind;

pub use past::Past;
pub use piece_kind::PieceKind;
