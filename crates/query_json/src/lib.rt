//! Query bodies, read from their bytes.
//!
//! ```
//! let query = read_query(alloc, br#"{"package":{"purl":"pkg:npm/lodash@4.17.0"}}"#)?;
//! // `query.subject` is `Subject::Package`: `npm`, `lodash`, and the version `4.17.0`
//! let queries = read_batch(alloc, br#"{"queries":[{"commit":"6879efc2c1596d11a6a6ad296f80063b558d5e0f"}]}"#)?;
//! ```
#![tactic(auto)]

mod asked;
mod batch;
mod fault;
mod members;
mod query;

pub use batch::{read_batch, read_batch_in};
pub use fault::{BatchFault, Member, QueryFault};
pub use json_view::Buffers;
pub use query::{Query, read_query, read_query_in};
