//! Which advisories affect a version, by the compiled forms of their ranges: no event is read again.
//!
//!     let forms = compile(alloc, &advisory)?;
//!     let keys = AskedVersion::read(alloc, "1.2.0")?;
//!     let hit = version_hit(&advisory, forms.as_slice(), &asked, "1.2.0", &keys);
#![tactic(auto)]

mod asked;
mod bounds;
mod compiling;
mod form;
mod hit;
mod key;

pub use asked::AskedVersion;
pub use compiling::compile;
pub use form::CompiledRange;
pub use hit::version_hit;
