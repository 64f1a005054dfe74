//! The bodies of replies, in JSON.
//!
//! ```
//! let answer = Answer { snapshot: 7, found: found.hits, more: found.more };
//! put_answer(&mut body, &answer)?; // {"vulns":[..],"next_page_token":"7~GHSA-1"}
//! let body = refusal_body(alloc, &Refusal::NoSuchId)?; // {"code":11,"message":"no such id"}
//! ```
#![tactic(auto)]

mod answer;
mod plain;
mod refusal;
mod writing;

pub use answer::{Answer, put_answer, put_batch};
pub use plain::{building_body, commits_body, entry_body, published_body};
pub use refusal::{Refusal, body_of, refusal_body};
