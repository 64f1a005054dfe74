//! What a service is set to: how much it keeps, and how much it takes.
//!
//! ```
//! let settings = Settings::default();
//! let small = Settings { keep: 1, ..settings };
//! ```
#![tactic(auto)]

ghost use Rattle.std.specs.Prelude.{◌≡◌};
ghost use Rattle.settings.specs.Ranges.{AreInRange, default_settings};

/// The most snapshots that may be kept; at least one is.
pub const MAX_KEEP: u32 = 1_000;

/// The most hits on a page; at least one is.
pub const MAX_PAGE: u32 = 1_000;

/// The least weight that a history may be given, in bytes.
pub const MIN_WEIGHT: u64 = 64;

/// The greatest weight that a history may be given, in bytes.
pub const MAX_WEIGHT: u64 = 4_294_967_296;

/// The most commits of a stream, and of a repository; at least one is taken.
pub const MAX_COMMITS: u32 = 16_777_216;

/// The most bytes of a request's body; at least one is taken.
pub const MAX_BODY_BYTES: u64 = 268_435_456;

/// The most bytes of a stream's body; at least one is taken.
pub const MAX_STREAM_BYTES: u64 = 8_589_934_592;

/// The most requests in a session; at least one is answered.
pub const MAX_REQUESTS: u64 = 1_000_000;

/// The most bytes of input that a command reads as a whole; at least one is taken.
pub const MAX_INPUT_BYTES: u64 = 1_073_741_824;

/// How much a service keeps and takes.
#[derive(Clone, Copy, Debug, PartialEq, Eq)]
pub struct Settings {
    /// Bytes that the entries of a history may weigh, from 64 to 4,294,967,296.
    pub weight: u64,
    /// Bytes of a request's body, from 1 to 268,435,456.
    pub body: u64,
    /// Bytes of a body at the path of streams, from 1 to 8,589,934,592.
    pub stream: u64,
    /// Requests in a session, from 1 to 1,000,000.
    pub requests: u64,
    /// Snapshots that are kept, from 1 to 1,000.
    pub keep: u32,
    /// Hits on a page, from 1 to 1,000.
    pub page: u32,
    /// Commits of a stream and of a repository, from 1 to 16,777,216.
    pub commits: u32,
}

impl Default for Settings {
    /// 8 snapshots, 100 hits on a page, a weight of 1,073,741,824 bytes, and the most of all else.
    fn default() -> Settings
        ensures value { result ≡ default_settings }
        ensures range { AreInRange result }
    {
        Settings {
            weight: 1_073_741_824,
            body: MAX_BODY_BYTES,
            stream: MAX_STREAM_BYTES,
            requests: MAX_REQUESTS,
            keep: 8,
            page: 100,
            commits: MAX_COMMITS,
        }
    }
}
