ghost use Rattle.std.specs.Prelude.{◌≡◌, IfOk, length};
ghost use Rattle.osv_record.specs.Advisories.{is_git, has_its_repo};

use crate::record::PLACES;
use osv_prim::{Event, List, Memory, RangeKind, RepoKey};
use std::marker::Model;

/// A range of versions or commits, told by events (OSV schema 1.6, "affected[].ranges[]"). A GIT range has
/// the key of its repository, and no other range has one. It has fewer than 2^32 events.
#[derive(Debug, Drop)]
pub struct Range {
    /// What the events name.
    pub kind: RangeKind,
    /// The repository of a GIT range.
    pub repo: Option<RepoKey>,
    /// The events, in the order of the advisory.
    pub events: List<Event>,
}

impl Model for Range {
    ghost use Rattle.std.specs.Prelude.{◌<◌, ◌^◌, length};
    ghost use Rattle.osv_record.specs.Advisories.{Extent, has_its_repo};

    ghost Value = { Extent };

    ghost view = { λ r. record { kind = r.kind; repo = r.repo; events = r.events } };

    ghost invariant = { λ r. has_its_repo r.kind r.repo × (length r.events < 2 ^ 32) };
}

impl Range {
    pub(crate) fn new(
        kind: RangeKind,
        repo: Option<RepoKey>,
        events: List<Event>,
    ) -> Result<Range, Memory>
        requires { has_its_repo kind repo }
        ensures { IfOk result (λ r. r ≡ record { kind = kind; repo = repo; events = events }) }
    {
        if events.len() >= PLACES {
            return Err(Memory);
        }
        Ok(Range { kind, repo, events })
    }
}
