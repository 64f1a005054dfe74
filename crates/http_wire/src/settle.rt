ghost use Rattle.std.specs.Prelude.{◌≡◌, ◌≤◌, ◌-◌, ℕ};
ghost use Rattle.std.specs.Io.KnownBytes.{prepend_known};
ghost use Rattle.edge_io.specs.Causes.{Rose};
ghost use Rattle.http_wire.specs.Moves.{Moves, IfStage, IsReady, IsBytes};
ghost use Rattle.http_wire.specs.Fits.{IsFit, work};
ghost use Rattle.http_wire.specs.declared.chunk.Step.TheVariants.{ReadFault};
ghost use Rattle.http_wire.specs.declared.rest.Stage.TheVariants.{Line, Chunk, Trailers};

use crate::chunk::{Step, close_chunk, next_chunk, next_trailer};
use crate::held::Held;
use crate::rest::Stage;
use edge_io::Source;

/// Reads what stands before the next bytes of a body, or before its end.
pub(crate) fn settle<S: Source>(source: &mut S, held: &mut Held, stage: Stage, limit: u64) -> Step
    requires { IsFit limit stage }
    ensures moves { Moves limit stage (prepend_known held.old (S.left source.old)) result (prepend_known held.new (S.left source.new)) }
    ensures ready { IfStage result (IsReady limit) }
    ensures work { IfStage result (λ s. work limit s ≤ work limit stage) }
    ensures later { S.faults source.old ≤ S.faults source.new }
    ensures fault { result ≡ ReadFault → Rose (S.faults source.old) (S.faults source.new) }
{
    match stage {
        Stage::Bytes(_) => Step::Stage(stage),
        Stage::Line(sum) => behind_chunk(source, held, sum, limit),
        Stage::Chunk(left, sum) => {
            if left > 0 {
                return Step::Stage(stage);
            }
            behind_bytes(source, held, sum, limit)
        }
        Stage::Trailers(room) => read_trailers(source, held, room),
    }
}

// Reads what stands behind the bytes of a chunk.
fn behind_bytes<S: Source>(source: &mut S, held: &mut Held, sum: u64, limit: u64) -> Step
    requires { sum ≤ limit }
    ensures moves { Moves limit (Chunk 0 sum) (prepend_known held.old (S.left source.old)) result (prepend_known held.new (S.left source.new)) }
    ensures ready { IfStage result (IsReady limit) }
    ensures work { IfStage result (λ s. work limit s ≤ limit - sum) }
    ensures later { S.faults source.old ≤ S.faults source.new }
    ensures fault { result ≡ ReadFault → Rose (S.faults source.old) (S.faults source.new) }
{
    match close_chunk(source, held, sum) {
        Step::Stage(_) => behind_chunk(source, held, sum, limit),
        Step::Refused(fault) => Step::Refused(fault),
        Step::Truncated => Step::Truncated,
        Step::ReadFault => Step::ReadFault,
    }
}

// Reads a chunk line, and behind a last chunk its trailers.
fn behind_chunk<S: Source>(source: &mut S, held: &mut Held, sum: u64, limit: u64) -> Step
    requires { sum ≤ limit }
    ensures moves { Moves limit (Line sum) (prepend_known held.old (S.left source.old)) result (prepend_known held.new (S.left source.new)) }
    ensures ready { IfStage result (IsReady limit) }
    ensures work { IfStage result (λ s. work limit s ≤ limit - sum) }
    ensures later { S.faults source.old ≤ S.faults source.new }
    ensures fault { result ≡ ReadFault → Rose (S.faults source.old) (S.faults source.new) }
{
    match next_chunk(source, held, sum, limit) {
        Step::Stage(Stage::Trailers(room)) => read_trailers(source, held, room),
        next => next,
    }
}

// Reads trailers up to the empty line.
fn read_trailers<S: Source>(source: &mut S, held: &mut Held, mut room: u64) -> Step
    requires { room ≤ 65536 }
    ensures moves { (limit : ℕ) → Moves limit (Trailers room) (prepend_known held.old (S.left source.old)) result (prepend_known held.new (S.left source.new)) }
    ensures end { IfStage result IsBytes }
    ensures later { S.faults source.old ≤ S.faults source.new }
    ensures fault { result ≡ ReadFault → Rose (S.faults source.old) (S.faults source.new) }
{
    'lines: loop {
        match next_trailer(source, held, room) {
            Step::Stage(Stage::Trailers(left)) => room = left,
            next => return next,
        }
    }
}
