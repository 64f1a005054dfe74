ghost use Rattle.std.specs.Prelude.{◌≡◌, ◌≤◌, ◌<◌, ◌+◌, ◌^◌, List, ℕ, length, min, vec_capacity};
ghost use Rattle.std.specs.Io.KnownBytes.{prepend_known};
ghost use Rattle.edge_io.specs.Causes.{Rose};
ghost use Rattle.http_wire.specs.Parts.{GivesBehind};
ghost use Rattle.http_wire.specs.Fits.{work};
ghost use Rattle.http_wire.specs.Moves.{IsReady};
ghost use Rattle.http_wire.specs.Rests.{left_of, PartOf, PartBehind, work_of};
ghost use Rattle.http_wire.specs.Requests.{body};
ghost use Rattle.http_wire.specs.declared.rest.Part.TheVariants.{More, ReadFault};

use crate::chunk::Step;
use crate::fault::Framing;
use crate::held::Held;
use crate::rest::{Part, Rest, Stage};
use crate::settle::settle;
use crate::taking::{MOST_PART, Taken, take_bytes};
use edge_io::Source;

/// The whole body behind a head.
#[tactic(auto, unfolding(crate::specs::Chunks::chunked))]
pub(crate) fn rest_of(framing: Framing, limit: u64) -> Rest
    ensures left { (text : List ℕ) → left_of result text ≡ body limit framing text }
    ensures counted { work_of result < 2 ^ 64 }
{
    match framing {
        Framing::Sized(length) => Rest {
            stage: Stage::Bytes(length),
            limit,
        },
        Framing::Chunked => Rest {
            stage: Stage::Line(0),
            limit,
        },
    }
}

/// Reads the next part of a body into `part`, in place of what it has: 1 to 65,536 bytes at `More`, and
/// none else. It takes no memory.
pub fn read_part<S: Source>(
    source: &mut S,
    held: &mut Held,
    rest: &mut Rest,
    part: &mut Vec<u8>,
) -> Part
    requires { 65536 ≤ vec_capacity part.old }

    // Where the source tells its bytes, the part is the front of the body that is left.
    ensures gives { PartOf rest.old (prepend_known held.old (S.left source.old)) result part.new.items rest.new (prepend_known held.new (S.left source.new)) }
    ensures room { 65536 ≤ vec_capacity part.new }

    // What is left falls by the part.
    ensures some { result ≡ More → work_of rest.new < work_of rest.old }
    ensures less { result ≡ More → length part.new.items + work_of rest.new ≤ work_of rest.old }

    // A fault comes only where one rose in this call.
    ensures later { S.faults source.old ≤ S.faults source.new }
    ensures fault { result ≡ ReadFault → Rose (S.faults source.old) (S.faults source.new) }
{
    part.clear();
    next_part(source, held, rest, MOST_PART as usize, part)
}

/// Reads the next part of a body, of at most `most` bytes, behind what `part` has.
pub(crate) fn next_part<S: Source>(
    source: &mut S,
    held: &mut Held,
    rest: &mut Rest,
    most: usize,
    part: &mut Vec<u8>,
) -> Part
    requires more { min (work_of rest.old) 1 ≤ most }
    requires few { most ≤ 65536 }
    requires room { length part.old.items + most ≤ vec_capacity part.old }
    ensures gives { PartBehind rest.old (prepend_known held.old (S.left source.old)) part.old.items result part.new.items rest.new (prepend_known held.new (S.left source.new)) }
    ensures some { result ≡ More → work_of rest.new < work_of rest.old }
    ensures less { result ≡ More → length part.new.items + work_of rest.new ≤ length part.old.items + work_of rest.old }
    ensures capacity { vec_capacity part.old ≤ vec_capacity part.new }
    ensures later { S.faults source.old ≤ S.faults source.new }
    ensures fault { result ≡ ReadFault → Rose (S.faults source.old) (S.faults source.new) }
{
    match settle(source, held, rest.stage, rest.limit) {
        Step::Stage(stage) => take_part(source, held, stage, rest, most, part),
        Step::Refused(fault) => Part::Refused(fault),
        Step::Truncated => Part::Truncated,
        Step::ReadFault => Part::ReadFault,
    }
}

// Takes bytes at a stage that has some.
fn take_part<S: Source>(
    source: &mut S,
    held: &mut Held,
    stage: Stage,
    rest: &mut Rest,
    most: usize,
    part: &mut Vec<u8>,
) -> Part
    requires ready { IsReady rest.old.limit stage }
    requires more { min (work rest.old.limit stage) 1 ≤ most }
    requires few { most ≤ 65536 }
    requires room { length part.old.items + most ≤ vec_capacity part.old }
    ensures gives { GivesBehind rest.old.limit stage (prepend_known held.old (S.left source.old)) part.old.items result part.new.items rest.new.stage (prepend_known held.new (S.left source.new)) }
    ensures limit { rest.new.limit ≡ rest.old.limit }
    ensures some { result ≡ More → work rest.old.limit rest.new.stage < work rest.old.limit stage }
    ensures less { result ≡ More → length part.new.items + work rest.old.limit rest.new.stage ≤ length part.old.items + work rest.old.limit stage }
    ensures capacity { vec_capacity part.old ≤ vec_capacity part.new }
    ensures later { S.faults source.old ≤ S.faults source.new }
    ensures fault { result ≡ ReadFault → Rose (S.faults source.old) (S.faults source.new) }
{
    match stage {
        Stage::Bytes(left) => {
            if left == 0 {
                return Part::Done;
            }
            match take_bytes(source, held, most_of(left, most), part) {
                Taken::Bytes(count) => {
                    rest.stage = Stage::Bytes(left - count as u64);
                    Part::More
                }
                Taken::Ended => Part::Truncated,
                Taken::ReadFault => Part::ReadFault,
            }
        }
        Stage::Chunk(left, sum) => match take_bytes(source, held, most_of(left, most), part) {
            Taken::Bytes(count) => {
                rest.stage = Stage::Chunk(left - count as u64, sum);
                Part::More
            }
            Taken::Ended => Part::Truncated,
            Taken::ReadFault => Part::ReadFault,
        },
        _ => unreachable!(),
    }
}

// The lesser of both.
fn most_of(left: u64, most: usize) -> usize
    ensures { result ≡ min left most }
{
    left.min(most as u64) as usize
}
