ghost use Rattle.std.specs.Prelude.{◌≡◌};
ghost use Rattle.http_wire.specs.Codes.{code_of};

/// Why a request is refused, in the order of the tests. A faulty head and a faulty body can't be followed
/// by another request, since nobody knows where it begins.
#[derive(Clone, Copy, Debug, PartialEq, Eq, Hash)]
pub enum WireFault {
    /// No head ends within its first 65,536 bytes, those of line ends before it among them.
    HeadTooLong,
    /// The head is no request head with at most 100 header lines (RFC 9112, sections 3 and 5).
    BadHead,
    /// Both `content-length` and `transfer-encoding` are there (RFC 9112, section 6.3).
    BothLengths,
    /// `transfer-encoding` is there more than once, or is not `chunked`.
    TransferCoding,
    /// A `content-length` is not 1 to 19 digits, or two of them are different numbers.
    BadLength,
    /// A `content-encoding` is not `identity`.
    ContentCoding,
    /// The length, or the sum of the sizes of the chunks so far, is above the limit of the path.
    BodyTooLarge { limit: u64 },
    /// A chunk, or a line behind the last one, is malformed or too long (RFC 9112, section 7.1).
    BadChunk,
}

impl WireFault {
    /// Its number in a reply, from 1 to 8.
    pub fn code(&self) -> u8
        ensures { result ≡ code_of self.now }
    {
        match self {
            WireFault::BadHead => 1,
            WireFault::BadLength => 2,
            WireFault::BothLengths => 3,
            WireFault::BadChunk => 4,
            WireFault::BodyTooLarge { .. } => 5,
            WireFault::ContentCoding => 6,
            WireFault::HeadTooLong => 7,
            WireFault::TransferCoding => 8,
        }
    }
}

/// How a body is framed (RFC 9112, section 6).
#[derive(Clone, Copy, Debug, PartialEq, Eq, Hash)]
pub(crate) enum Framing {
    /// It has so many bytes.
    Sized(u64),
    /// It comes in chunks.
    Chunked,
}
