//! Ids, package keys, and the small types that contracts see as texts, bytes and lists:
//!
//! ```text
//! let package = PackageKey::normal(alloc, "PyPI", "Friendly_Bard")?;
//! let asked = PackageKey::normal(alloc, "PyPI", "friendly-bard")?;
//! let is_matched = package.matches(&asked); // true
//! ```
#![tactic(auto)]

mod bound;
mod bytes;
mod digits;
mod event;
mod id;
pub mod laws;
mod list;
mod lists;
mod memory;
mod numeral;
mod oid;
mod package;
mod read_version;
mod repo;
mod short;
mod steps;
mod stop;
mod subject;
mod text;

pub use bound::Bound;
pub use bytes::Bytes;
pub use digits::{Digits, digits_cmp, identifiers_cmp, split_digits};
pub use event::{Event, EventKind, RangeKind};
pub use id::{Id, IdFault};
pub use list::List;
pub use lists::Lists;
pub use memory::Memory;
pub use numeral::{read_u64, read_u64_in};
pub use oid::{CommitRow, NotAnId, Oid};
pub use package::{PackageKey, base_of};
pub use read_version::ReadVersion;
pub use repo::RepoKey;
pub use steps::{Ledger, Steps, Unkept};
pub use stop::Stop;
pub use subject::Subject;
pub use text::Text;
