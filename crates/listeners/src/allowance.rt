ghost use Rattle.std.specs.Prelude.{◌≡◌};
ghost use Rattle.std.specs.Duration.{as_nanos};
ghost use Rattle.listeners.specs.Waiting.{left_nanos};

use std::time::Duration;

/// How many seconds a peer may let us wait that moves nothing.
pub const PATIENCE_SECONDS: u64 = 10;

/// For how many bytes that were moved it may let us wait a second more.
pub const SECOND_BYTES: u64 = 16_384;

/// How long a peer has let us wait, and how many bytes it moved meanwhile.
#[derive(Clone, Copy, Debug, PartialEq, Eq)]
pub struct Allowance {
    waited: Duration,
    moved: u64,
}

impl Allowance {
    /// The allowance of a peer that has let us wait so long, and moved so many bytes.
    pub fn spent(waited: Duration, moved: u64) -> Allowance
        ensures waited { as_nanos result.waited ≡ as_nanos waited }
        ensures moved { result.moved ≡ moved }
    {
        Allowance { waited, moved }
    }

    /// How long the peer may let us wait from here on.
    pub fn left(&self) -> Duration
        ensures { as_nanos result ≡ left_nanos (as_nanos self.now.waited) self.now.moved }
    {
        let seconds = PATIENCE_SECONDS + self.moved / SECOND_BYTES;
        Duration::from_secs(seconds).saturating_sub(self.waited)
    }
}
