use crate::commits::{Commits, Taken};
use crate::fault::StreamFault;
use crate::grammar::Part;
use crate::opening::opens;
use osv_prim::{CommitRow, List};
use std::alloc::Global;

/// The commands of a stream, line after line.
#[derive(Drop)]
pub(crate) struct Commands {
    // The parts that come next, before a further command.
    parts: &'static [Part],
    commits: Commits,
    most: u32,
}

/// What follows a line.
#[derive(Clone, Copy, Debug)]
pub(crate) enum Then {
    /// So many bytes, and then a further line.
    Skip(u64),
    /// Nothing: the line was `done`.
    Ends,
}

impl Commands {
    ghost use Rattle.std.specs.Prelude.{◌≡◌, ◌&&◌, not, length, [], IfOk, IfErr};
    ghost use Rattle.fast_export.specs.declared.fault.StreamFault.TheVariants.{Memory as no_memory};
    ghost use Rattle.fast_export.specs.Facts.{start, settled, rows_of, opens};
    ghost use Rattle.fast_export.specs.Commits.{facts_of};
    ghost use Rattle.fast_export.specs.Following.{offered, first_line, may_end_at};
    ghost use Rattle.fast_export.specs.Offers.{Offers};

    pub(crate) fn new(alloc: Global, most: u32) -> Commands
        ensures facts { facts_of result.commits ≡ start }
        ensures parts { result.parts.now ≡ [] }
        ensures most { result.most ≡ most }
    {
        Commands {
            parts: &[],
            commits: Commits::new(alloc),
            most,
        }
    }

    /// Whether a stream may end here.
    pub(crate) fn may_end(&self) -> bool
        ensures { result ≡ (may_end_at self.now.parts.now && not self.now.commits.promised) }
    {
        let ends = match first_of(self.parts) {
            Some((part, _)) => part.may_end(),
            None => true,
        };
        ends && !self.commits.promised()
    }

    /// The rows of all commits.
    pub(crate) fn finish(self) -> Result<List<CommitRow>, StreamFault>
        ensures ok { IfOk result (λ rows. rows ≡ rows_of (facts_of self.commits)) }
        ensures err { IfErr result (λ e. e ≡ no_memory) }
    {
        let mut commits = self.commits;
        commits.settle()?;
        Ok(commits.into_rows())
    }

    /// The rows of the commits before the last one.
    pub(crate) fn into_rows(self) -> List<CommitRow>
        ensures { result ≡ self.commits.rows }
    {
        self.commits.into_rows()
    }

    fn open(&mut self, line: &[u8], at: u64) -> Result<Then, StreamFault>
        ensures line { Offers result self.new.parts.now (facts_of self.new.commits)
            (first_line (opens self.old.most (length (rows_of (facts_of self.old.commits))) at line.now) (settled (facts_of self.old.commits))) }
        ensures most { self.new.most ≡ self.old.most }
    {
        self.commits.settle()?;
        let command = opens(self.most, self.commits.count(), line, at)?;
        if command.is_done() {
            return Ok(Then::Ends);
        }
        self.commits.tell(command);
        self.parts = command.parts();
        Ok(Then::Skip(0))
    }

    /// Takes the line that begins at `at`.
    #[tactic(auto, unfolding(crate::specs::Following::offered))]
    pub(crate) fn line(&mut self, line: &[u8], at: u64) -> Result<Then, StreamFault>
        ensures line { Offers result self.new.parts.now (facts_of self.new.commits)
            (offered self.old.most self.old.parts.now (facts_of self.old.commits) at line.now) }
        ensures most { self.new.most ≡ self.old.most }
    {
        let mut parts = self.parts;
        while let Some((part, after)) = first_of(parts) {
            match self.commits.take(part, line, at)? {
                Taken::Line => {
                    self.parts = if_repeated(part, parts, after);
                    return Ok(Then::Skip(0));
                }
                Taken::Counts(count) => {
                    self.parts = after;
                    return Ok(Then::Skip(count));
                }
                Taken::Nothing => parts = after,
            }
        }
        self.open(line, at)
    }
}

ghost use Rattle.std.specs.Prelude.{◌≡◌, [], ◌∷◌, MatchOption, if◌then◌else◌};
ghost use Rattle.fast_export.specs.Grammar.{repeats};

fn first_of(parts: &'static [Part]) -> Option<(Part, &'static [Part])>
    ensures { MatchOption result (parts.now ≡ []) (λ p. parts.now ≡ p.0 ∷ p.1.now) }
{
    match parts {
        [] => None,
        [part, after @ ..] => Some((*part, after)),
    }
}

// What comes next behind a line of the first of the parts.
fn if_repeated(part: Part, parts: &'static [Part], after: &'static [Part]) -> &'static [Part]
    ensures { result.now ≡ (if repeats part then parts.now else after.now) }
{
    if part.repeats() { parts } else { after }
}
