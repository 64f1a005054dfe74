//! A service over the connections of a listener: lanes that serve them, and helpers that do the jobs of publications
//! beside them, over one book.
//!
//! ```text
//! let crew = Crew { lanes: 4, helpers: 2 };
//! serve(&rt, &rt, rt.alloc(), &settings, crew, &mut listener, &OpenGate)?; // returns once all lanes have ended
//! ```
#![tactic(auto)]

mod lane;
mod rest;
mod service;
mod shared;

pub use lane::{FEW_JOBS, MOST_FAILED, MOST_JOBS, serve_connection};
pub use rest::RestGate;
pub use service::{Crew, serve};
