ghost use Rattle.std.specs.Prelude.{◌≤◌, ℕ, IfOk, IfNone};
ghost use Rattle.edge_io.specs.Causes.{HasCause, Rose};

use edge_io::{Failed, Sink, Source};

/// Where connections come from. Several lanes of one listener may accept beside one another, in whatever threads.
///
/// `Failed` comes only where the count of faults rose in that call. A call that did not fail leaves it as it was.
pub trait Listener: Send + Drop + Sized {
    /// What a client sends.
    type From: Source + Send + Drop;

    /// Where its replies go.
    type To: Sink + Send + Drop;

    /// How often a call failed. The count never falls and stays at 2^64 - 1.
    ghost faults: { Self → ℕ };

    /// How often it was told that no connection will come. The count never falls and stays at 2^64 - 1.
    ghost closed: { Self → ℕ };

    /// Opens an address, as `127.0.0.1:8080`, for connections.
    fn listen(&mut self, address: &str) -> Result<(), Failed>
        ensures cause { HasCause (faults self.old) (faults self.new) result }
        ensures later { closed self.old ≤ closed self.new };

    /// Another lane of the listener, which has counts of its own.
    fn lane(&mut self) -> Result<Self, Failed>
        ensures cause { HasCause (faults self.old) (faults self.new) result }
        ensures later { closed self.old ≤ closed self.new };

    /// Waits for the next connection. None: no connection will come.
    fn accept(&mut self) -> Result<Option<(Self::From, Self::To)>, Failed>
        ensures cause { HasCause (faults self.old) (faults self.new) result }
        ensures later { closed self.old ≤ closed self.new }
        ensures none { IfOk result (λ c. IfNone c (Rose (closed self.old) (closed self.new))) };
}
