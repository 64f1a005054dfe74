ghost use Rattle.std.specs.Prelude.{◌≡◌, IfOk};

use crate::memory::Memory;
use crate::text::Text;
use std::alloc::Global;

/// What an event of a range says (OSV schema 1.6, "affected[].ranges[].events"). At one version events
/// take effect in this order.
#[derive(Clone, Copy, Debug, PartialEq, Eq, PartialOrd, Ord)]
pub enum EventKind {
    /// The vulnerability is there from this version or commit on.
    Introduced,
    /// It is no longer there from this one on.
    Fixed,
    /// This is the last one in which it is there.
    LastAffected,
    /// The range tells of nothing from this one on.
    Limit,
}

/// One event of a range: what it says, and of which version or commit (OSV schema 1.6,
/// "affected[].ranges[].events").
#[derive(Debug, Drop)]
pub struct Event {
    /// What it says.
    pub kind: EventKind,
    /// The version, or the 40 hex digits of a commit, as the advisory spells it. Two values name none:
    /// `0` where it is introduced, and `*` as a limit.
    pub value: Text,
}

impl Event {
    ghost use Rattle.osv_prim.specs.Events.{is_endless, is_lowest, means_all};

    /// A copy of the event. Only memory can fail.
    pub fn copy(&self, alloc: Global) -> Result<Event, Memory>
        ensures { IfOk result (λ e. e ≡ self.now) }
    {
        Ok(Event {
            kind: self.kind,
            value: self.value.copy(alloc)?,
        })
    }

    /// Whether it is an `introduced` of `0`: before each version, and at each commit without parents.
    pub fn is_lowest(&self) -> bool
        ensures { result ≡ is_lowest self.now }
    {
        match self.kind {
            EventKind::Introduced => self.value.as_str() == "0",
            EventKind::Fixed | EventKind::LastAffected | EventKind::Limit => false,
        }
    }

    /// Whether it is a `limit` of `*`: after each version and each commit.
    pub fn is_endless(&self) -> bool
        ensures { result ≡ is_endless self.now }
    {
        match self.kind {
            EventKind::Limit => self.value.as_str() == "*",
            EventKind::Introduced | EventKind::Fixed | EventKind::LastAffected => false,
        }
    }

    /// Whether its value names no version and no commit of its own: it is one of those two.
    pub fn means_all(&self) -> bool
        ensures { result ≡ means_all self.now }
    {
        self.is_lowest() || self.is_endless()
    }
}

/// What the events of a range name (OSV schema 1.6, "affected[].ranges[].type").
#[derive(Clone, Copy, Debug, PartialEq, Eq)]
pub enum RangeKind {
    /// Semantic versions.
    SemVer,
    /// Versions in the order of the package's ecosystem.
    Ecosystem,
    /// Commits of a repository.
    Git,
}
