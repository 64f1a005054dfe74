use osv_prim::Bytes;

/// A request (RFC 9112, section 3). Its texts are bytes, since a head need not be UTF-8.
#[derive(Debug, Drop)]
pub struct Request {
    pub method: Bytes,
    /// The target before its first `?`.
    pub path: Bytes,
    /// What follows that `?`, and nothing where there is none.
    pub query: Bytes,
    /// The value of the first `x-osv-min-snapshot`.
    pub min: Option<Bytes>,
    pub body: Bytes,
    /// 0 or 1, as in HTTP/1.1.
    pub version: u8,
    /// Whether the connection is to close behind the reply (RFC 9112, section 9.6): it is HTTP/1.0,
    /// or `close` is among the members of a `connection`.
    pub close: bool,
}
