ghost use Rattle.std.specs.Prelude.{◌≡◌, ◌∷◌, [], None, IfOk, if◌then◌else◌, slice_index_or};
ghost use Rattle.std.specs.Arc.{arc_value};
ghost use Rattle.snapshot.specs.Snapshots.{StandsFor};
ghost use Rattle.impact_job.specs.Tables.{IsPrefixOf};
ghost use Rattle.book_model.specs.State as kinds;
ghost use Rattle.book_model.specs.State.{Done, is_kind, holder, out_count};
ghost use Rattle.book.specs.Pieces.{IsOutTo};
ghost use Rattle.book.specs.declared.build.Stage.TheVariants as stages;
ghost use Rattle.book.specs.Builds.{kind_of, number_of, phase_of, owned_by, stage_cells, open_build, IsStageOf};
ghost use Rattle.book.specs.Handing.{IsJobOf, HandsOutOf, IsFreed, IsStageFor, IsFilledBy};

use crate::pieces::Pieces;
use impact_job::Prefix;
use impact_set::ImpactSet;
use osv_prim::Memory;
use snapshot::{Job, Snapshot};
use std::alloc::Global;
use std::sync::Arc;

/// A build that is open: it is of `upto` imports, which are those of the first `place` entries. `owner` has
/// the job of a plan or an assembly.
#[derive(Drop)]
pub(crate) struct Open {
    pub(crate) upto: u64,
    pub(crate) place: u64,
    pub(crate) stage: Stage,
    pub(crate) owner: Option<u64>,
}

/// What the jobs of a build work on.
#[derive(Drop)]
pub(crate) enum Stage {
    Plan(Arc<Prefix>),
    Pieces(Pieces),
    /// All pieces are done.
    Assemble(Pieces),
}

/// Which job of a build.
#[derive(Clone, Copy)]
pub(crate) enum Part {
    Plan,
    Piece(u32),
    Assemble,
}

/// The job of a plan, which shares the prefix.
pub(crate) fn plan_job(build: u64, prefix: &Arc<Prefix>) -> Result<Job, Memory>
    ensures { IfOk result (IsJobOf build (arc_value prefix.now).upto kinds.Plan 0 (IsPrefixOf (arc_value prefix.now))) }
{
    Ok(Job::Plan {
        build,
        prefix: Arc::try_clone(prefix)?,
    })
}

// The job of an assembly.
fn assembly_job(
    alloc: Global,
    build: u64,
    base: &Arc<Snapshot>,
    pieces: &Pieces,
) -> Result<Job, Memory>
    ensures { IfOk result (IsJobOf build pieces.now.plan.upto kinds.Assemble 0 (λ b p. StandsFor (arc_value base.now) b × IsStageOf (stages.Assemble pieces.now) b p)) }
{
    let filled = Arc::new(alloc, pieces.filled(alloc)?)?;
    let base = Arc::try_clone(base)?;
    Ok(Job::Assemble {
        build,
        base,
        filled,
    })
}

/// The stage of these pieces: the assembly as soon as all of them are done.
pub(crate) fn stage_of(pieces: Pieces) -> Stage
    ensures { IsStageFor pieces result }
{
    if pieces.are_done() {
        Stage::Assemble(pieces)
    } else {
        Stage::Pieces(pieces)
    }
}

/// The stage after a piece that is out made this set.
pub(crate) fn with_set(stage: Stage, by: u64, number: u32, set: Arc<ImpactSet>) -> Stage
    requires phase { phase_of stage ≡ kinds.Piece }
    requires out { IsOutTo by number (stage_cells stage None) }
    ensures { IsFilledBy number (arc_value set) stage result }
{
    let Stage::Pieces(mut pieces) = stage else {
        unreachable!()
    };
    pieces.put(by, number, set);
    stage_of(pieces)
}

fn only_out(owner: Option<u64>) -> u64
    ensures { result ≡ out_count (owned_by owner ∷ []) }
{
    match owner {
        Some(_) => 1,
        None => 0,
    }
}

impl Open {
    /// How many jobs are out.
    pub(crate) fn out(&self) -> u64
        ensures { result ≡ out_count (open_build self.now).cells }
    {
        match &self.stage {
            Stage::Plan(_) => only_out(self.owner),
            Stage::Pieces(pieces) => pieces.out(),
            Stage::Assemble(_) => only_out(self.owner),
        }
    }

    /// The caller that has a job.
    pub(crate) fn owner_of(&self, part: Part) -> Option<u64>
        ensures { result ≡ (if is_kind (kind_of part) (phase_of self.now.stage) then holder (slice_index_or (open_build self.now).cells (number_of part) Done) else None) }
    {
        match (&self.stage, part) {
            (Stage::Plan(_), Part::Plan) => self.owner,
            (Stage::Pieces(pieces), Part::Piece(number)) => pieces.owner(number),
            (Stage::Assemble(_), Part::Assemble) => self.owner,
            _ => None,
        }
    }

    /// Gives the first free job to a caller, where one is free. `base` is the snapshot on which the build
    /// stands.
    pub(crate) fn hand_out(
        &mut self,
        alloc: Global,
        base: &Arc<Snapshot>,
        build: u64,
        by: u64,
    ) -> Result<Option<Job>, Memory>
        ensures { HandsOutOf (arc_value base.now) build by self.old result self.new }
    {
        match &mut self.stage {
            Stage::Pieces(pieces) => pieces.hand_out(build, by),
            Stage::Plan(prefix) => {
                if self.owner.is_some() {
                    return Ok(None);
                }
                let job = plan_job(build, prefix)?;
                self.owner = Some(by);
                Ok(Some(job))
            }
            Stage::Assemble(pieces) => {
                if self.owner.is_some() {
                    return Ok(None);
                }
                let job = assembly_job(alloc, build, base, pieces)?;
                self.owner = Some(by);
                Ok(Some(job))
            }
        }
    }

    /// A job that is out is free again.
    pub(crate) fn free(&mut self, by: u64, part: Part)
        requires phase { kind_of part ≡ phase_of self.old.stage }
        requires out { IsOutTo by (number_of part) (open_build self.old).cells }
        ensures { IsFreed (number_of part) self.old self.new }
    {
        match part {
            Part::Plan => self.owner = None,
            Part::Piece(number) => {
                let Stage::Pieces(pieces) = &mut self.stage else {
                    unreachable!()
                };
                pieces.free(by, number);
            }
            Part::Assemble => self.owner = None,
        }
    }
}
