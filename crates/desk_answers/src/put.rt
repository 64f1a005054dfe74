ghost use Rattle.std.specs.Prelude.{◌≡◌, ◌≤◌, ◌+◌, ◌++◌, length, vec_len, vec_capacity};

/// Puts a text into room that is there.
pub(crate) fn put(room: &mut Vec<u8>, text: &[u8])
    requires { vec_len room.old + length text.now ≤ vec_capacity room.old }
    ensures items { room.new.items ≡ room.old.items ++ text.now }
    ensures len { vec_len room.new ≡ vec_len room.old + length text.now }
    ensures capacity { vec_capacity room.old ≤ vec_capacity room.new }
{
    match room.extend_from_slice(text) {
        Ok(()) => {}
        Err(_) => unreachable!(),
    }
}
