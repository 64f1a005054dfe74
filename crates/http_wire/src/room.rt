ghost use Rattle.std.specs.Prelude.{◌≡◌};
ghost use Rattle.http_wire.specs.Rooms.{limit_at};

/// How large a request may be.
#[derive(Clone, Copy, Debug, PartialEq, Eq)]
pub struct Room {
    /// Bytes of a body.
    pub body: u64,
    /// Bytes of a body at the path `/x/repo`, whatever the method.
    pub stream: u64,
}

/// How many bytes a body may have at this path.
pub(crate) fn limit_at(room: Room, path: &[u8]) -> u64
    ensures { result ≡ limit_at room path.now }
{
    if path == b"/x/repo".as_slice() {
        room.stream
    } else {
        room.body
    }
}
