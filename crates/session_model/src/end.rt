use crate::sign::Sign;
use http_wire::WireFault;

/// How a session ends.
#[derive(Clone, Copy, Debug, PartialEq, Eq)]
pub enum End {
    /// The source ended between requests.
    Ended,
    /// A request was answered that asks for close.
    Asked,
    /// As many requests as the settings have were answered, and none asks for close.
    Served,
    /// A request was refused that no other can follow.
    Refused(WireFault),
    /// The source ended inside a request.
    Truncated,
    ReadFault,
    /// The sink failed when it had taken the first `out` bytes of what was written last: an interim
    /// reply or a reply.
    WriteFault { out: u64 },
    /// There was no memory, and the reply of such a server was written.
    Memory,
}

/// What is left of a session.
#[derive(Debug, Drop)]
pub struct SessionEnd {
    /// For each request that was carried out, how many entries the history had behind its last step; where
    /// it asked nothing of the book, the point before it.
    pub points: Vec<u64>,
    /// For each of them, what its reply owes to the book.
    pub signs: Vec<Sign>,
    pub end: End,
}
