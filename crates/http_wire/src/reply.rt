use crate::reply_body::ReplyBody;

/// The method that a path has.
#[derive(Clone, Copy, Debug, PartialEq, Eq)]
pub enum Allow {
    Get,
    Post,
}

/// A reply, whose body is JSON.
#[derive(Debug, Drop)]
pub struct Reply {
    pub body: ReplyBody,
    /// The snapshot that the body is of, in `x-osv-snapshot`.
    pub snapshot: Option<u64>,
    /// The method that the path has, in `allow` (RFC 9110, section 10.2.1).
    pub allow: Option<Allow>,
    /// One of 200, 400, 404, 405, 409, 410, 413, 415, 431, 501, 503 and 507.
    pub status: u16,
    /// Whether `connection: close` is written.
    pub close: bool,
}
