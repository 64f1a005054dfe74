//! Package URLs, and the packages that they name.
//!
//! ```
//! let purl = Purl::read(alloc, "pkg:npm/%40angular/animation@12.3.1?a=b")?;
//! // `npm`, `@angular/animation`, and the version `12.3.1`
//! ```
#![tactic(auto)]

mod cuts;
mod decoding;
mod naming;
mod parts;
mod purl;

pub use purl::{Purl, PurlFault};
