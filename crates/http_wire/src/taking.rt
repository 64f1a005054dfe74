ghost use Rattle.std.specs.Prelude.{◌≡◌, ◌≤◌, ◌<◌, ◌+◌, ◌++◌, ℕ, List, length, vec_capacity};
ghost use Rattle.std.specs.Io.KnownBytes.{prepend_known};
ghost use Rattle.edge_io.specs.Causes.{Rose};
ghost use Rattle.http_wire.specs.Parts.{TookBehind};
ghost use Rattle.http_wire.specs.declared.taking.Taken.TheVariants.{ReadFault};

use crate::held::Held;
use edge_io::Source;

/// The most bytes of a part.
pub(crate) const MOST_PART: u64 = 65536;

/// What was taken off the front of a text.
#[derive(Clone, Copy)]
pub(crate) enum Taken {
    Bytes(usize),
    Ended,
    ReadFault,
}

/// Takes at least one and at most `most` bytes, of those that are held first, behind what the part has.
pub(crate) fn take_bytes<S: Source>(
    source: &mut S,
    held: &mut Held,
    most: usize,
    part: &mut Vec<u8>,
) -> Taken
    requires some { 0 < most }
    requires few { most ≤ 65536 }
    requires room { length part.old.items + most ≤ vec_capacity part.old }
    ensures took { TookBehind most (prepend_known held.old (S.left source.old)) part.old.items result part.new.items (prepend_known held.new (S.left source.new)) }
    ensures capacity { vec_capacity part.old ≤ vec_capacity part.new }
    ensures later { S.faults source.old ≤ S.faults source.new }
    ensures fault { result ≡ ReadFault → Rose (S.faults source.old) (S.faults source.new) }
{
    if held.as_slice().is_empty() {
        from_source(source, most, part)
    } else {
        Taken::Bytes(from_held(held, most, part))
    }
}

fn from_held(held: &mut Held, most: usize, part: &mut Vec<u8>) -> usize
    requires some { 0 < most }
    requires room { length part.old.items + most ≤ vec_capacity part.old }
    requires held { 0 < length held.old }
    ensures held { (bytes : List ℕ) × (part.new.items ≡ part.old.items ++ bytes) × (held.old ≡ bytes ++ held.new)
        × (length bytes ≡ result) × (0 < result) × (result ≤ most) }
    ensures capacity { vec_capacity part.old ≤ vec_capacity part.new }
{
    let bytes = held.as_slice();
    let count = bytes.len().min(most);
    let Ok(()) = part.extend_from_slice(&bytes[..count]) else {
        unreachable!();
    };
    held.consume(count);
    count
}

fn from_source<S: Source>(source: &mut S, most: usize, part: &mut Vec<u8>) -> Taken
    requires some { 0 < most }
    requires few { most ≤ 65536 }
    requires room { length part.old.items + most ≤ vec_capacity part.old }
    ensures took { TookBehind most (S.left source.old) part.old.items result part.new.items (S.left source.new) }
    ensures capacity { vec_capacity part.old ≤ vec_capacity part.new }
    ensures later { S.faults source.old ≤ S.faults source.new }
    ensures fault { result ≡ ReadFault → Rose (S.faults source.old) (S.faults source.new) }
{
    let len = part.len();
    let Ok(()) = part.resize(len + most, 0) else {
        unreachable!();
    };
    match source.read(&mut part[len..]) {
        Ok(count) => {
            part.truncate(len + count);
            if count == 0 {
                Taken::Ended
            } else {
                Taken::Bytes(count)
            }
        }
        Err(_) => {
            part.truncate(len);
            Taken::ReadFault
        }
    }
}
