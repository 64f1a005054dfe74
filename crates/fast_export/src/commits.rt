use crate::fault::StreamFault;
use crate::grammar::{Command, Part};
use crate::line::{begins, behind, is_file, is_inline, mark_digits, mark_of};
use osv_prim::{CommitRow, List, Oid, read_u64};
use std::alloc::Global;
use std::collections::BTreeMap;
use std::mem;

/// The commits that were read.
#[derive(Drop)]
pub(crate) struct Commits {
    // Of the last commit: its parents, its mark and its id.
    parents: List<Oid>,
    mark: Option<u64>,
    oid: Option<Oid>,
    // Of the commits before it.
    rows: List<CommitRow>,
    marks: BTreeMap<u64, Oid>,
    // The line `feature done` was read.
    promised: bool,
    alloc: Global,
}

/// What became of a line.
#[derive(Clone, Copy, Debug)]
pub(crate) enum Taken {
    /// It was taken.
    Line,
    /// It was taken, and so many bytes follow it.
    Counts(u64),
    /// It is another part's.
    Nothing,
}

impl Commits {
    ghost use Rattle.std.specs.Prelude.{◌≡◌, ◌↔◌, IsTrue, OnOk, IfErr, IfOk, Ok, length, Some, option_map};
    ghost use Rattle.std.specs.Result.{result_ok};
    ghost use Rattle.fast_export.specs.declared.fault.StreamFault.TheVariants.{Memory as no_memory};
    ghost use Rattle.fast_export.specs.Facts.{start, settled, takes, mark_line, data_line, file_line, commit_mark, commit_id, by_mark, parent_of, parent_text, parent_line, merge_line, with_line};
    ghost use Rattle.fast_export.specs.Commits.{facts_of, with_parent_oid};
    ghost use Rattle.fast_export.specs.Says.{Says};

    pub(crate) fn new(alloc: Global) -> Commits
        ensures { facts_of result ≡ start }
    {
        Commits {
            parents: List::new(alloc),
            mark: None,
            oid: None,
            rows: List::new(alloc),
            marks: BTreeMap::new(alloc),
            promised: false,
            alloc,
        }
    }

    /// How many commits came before the last one.
    pub(crate) fn count(&self) -> usize
        ensures { result ≡ length self.now.rows }
    {
        self.rows.len()
    }

    pub(crate) fn promised(&self) -> bool
        ensures { result ≡ self.now.promised }
    {
        self.promised
    }

    /// Notes what the first line of a command tells.
    pub(crate) fn tell(&mut self, command: Command)
        ensures { facts_of self.new ≡ with_line command (facts_of self.old) }
    {
        if command.promises() {
            self.promised = true;
        }
    }

    /// The last commit becomes an earlier one.
    pub(crate) fn settle(&mut self) -> Result<(), StreamFault>
        ensures ok { OnOk result (facts_of self.new ≡ settled (facts_of self.old)) }
        ensures err { IfErr result (λ e. e ≡ no_memory) }
    {
        let Some(oid) = self.oid else {
            return Ok(());
        };
        if let Some(number) = self.mark {
            let _ = self.marks.insert(number, oid)?;
        }
        let parents = mem::replace(&mut self.parents, List::new(self.alloc));
        self.rows.push(CommitRow { oid, parents })?;
        self.mark = None;
        self.oid = None;
        Ok(())
    }

    /// The rows of the commits before the last one.
    pub(crate) fn into_rows(self) -> List<CommitRow>
        ensures { result ≡ self.rows }
    {
        self.rows
    }

    #[tactic(auto, unfolding(crate::specs::Facts::commit_mark))]
    fn commit_mark(&mut self, line: &[u8], at: u64) -> Result<Taken, StreamFault>
        ensures { Says result (facts_of self.old) (facts_of self.new) (commit_mark (facts_of self.old) at line.now) }
    {
        let Some(text) = behind(b"mark ", line) else {
            return Ok(Taken::Nothing);
        };
        let Some(number) = mark_of(text) else {
            return Err(StreamFault::BadLine { at });
        };
        if self.marks.contains_key(&number) {
            return Err(StreamFault::MarkTwice { at });
        }
        self.mark = Some(number);
        Ok(Taken::Line)
    }

    #[tactic(auto, unfolding(crate::specs::Facts::commit_id))]
    fn commit_id(&mut self, line: &[u8], at: u64) -> Result<Taken, StreamFault>
        ensures { Says result (facts_of self.old) (facts_of self.new) (commit_id (facts_of self.old) at line.now) }
    {
        let Some(text) = behind(b"original-oid ", line) else {
            return Err(StreamFault::NoOriginalOid { at });
        };
        match Oid::read(text) {
            Ok(oid) => {
                self.oid = Some(oid);
                Ok(Taken::Line)
            }
            Err(_) => Err(StreamFault::BadOid { at }),
        }
    }

    fn marked(&self, number: u64) -> Option<Oid>
        ensures { result ≡ (facts_of self.now).marks number }
    {
        self.marks.get(&number).copied()
    }

    #[tactic(auto, unfolding(crate::specs::Facts::by_mark))]
    fn by_mark(&self, text: &[u8], at: u64) -> Result<Oid, StreamFault>
        ensures { result ≡ by_mark (facts_of self.now).marks at text.now }
    {
        let Some(digits) = mark_digits(text) else {
            return Err(StreamFault::RefParent { at });
        };
        let Some(number) = read_u64(digits) else {
            return Err(StreamFault::UnknownMark { at });
        };
        match self.marked(number) {
            Some(oid) => Ok(oid),
            None => Err(StreamFault::UnknownMark { at }),
        }
    }

    #[tactic(auto, unfolding(crate::specs::Facts::parent_of))]
    fn parent_of(&self, text: &[u8], at: u64) -> Result<Oid, StreamFault>
        ensures { result ≡ parent_of (facts_of self.now).marks at text.now }
    {
        match Oid::read(text) {
            Ok(oid) => Ok(oid),
            Err(_) => self.by_mark(text, at),
        }
    }

    // Most commits have one parent, and so a list with room for one.
    fn add_parent(&mut self, oid: Oid) -> Result<(), StreamFault>
        ensures ok { OnOk result (facts_of self.new ≡ with_parent_oid (facts_of self.old) oid) }
        ensures err { IfErr result (λ e. e ≡ no_memory) }
    {
        if self.parents.is_empty() {
            self.parents = List::with_capacity(self.alloc, 1)?;
        }
        self.parents.push(oid)?;
        Ok(())
    }

    fn parent_text(&mut self, text: &[u8], at: u64) -> Result<Taken, StreamFault>
        ensures { Says result (facts_of self.old) (facts_of self.new) (parent_text (facts_of self.old) at text.now) }
    {
        let oid = self.parent_of(text, at)?;
        self.add_parent(oid)?;
        Ok(Taken::Line)
    }

    #[tactic(auto, unfolding(crate::specs::Facts::parent_line))]
    fn parent_line(&mut self, line: &[u8], at: u64) -> Result<Taken, StreamFault>
        ensures { Says result (facts_of self.old) (facts_of self.new) (parent_line (facts_of self.old) at line.now) }
    {
        match behind(b"from ", line) {
            Some(text) => self.parent_text(text, at),
            None => Ok(Taken::Nothing),
        }
    }

    #[tactic(auto, unfolding(crate::specs::Facts::merge_line))]
    fn merge_line(&mut self, line: &[u8], at: u64) -> Result<Taken, StreamFault>
        ensures { Says result (facts_of self.old) (facts_of self.new) (merge_line (facts_of self.old) at line.now) }
    {
        if self.parents.is_empty() {
            return Ok(Taken::Nothing);
        }
        match behind(b"merge ", line) {
            Some(text) => self.parent_text(text, at),
            None => Ok(Taken::Nothing),
        }
    }

    /// Offers a line, which begins at `at`, to a part.
    #[tactic(auto, unfolding(crate::specs::Facts::takes))]
    pub(crate) fn take(&mut self, part: Part, line: &[u8], at: u64) -> Result<Taken, StreamFault>
        ensures { Says result (facts_of self.old) (facts_of self.new) (takes part (facts_of self.old) at line.now) }
    {
        match part {
            Part::Mark => mark_line(line, at),
            Part::CommitMark => self.commit_mark(line, at),
            Part::CommitId => self.commit_id(line, at),
            Part::May(word) => Ok(line_if(begins(word.text(), line))),
            Part::Needs(word) => needed(begins(word.text(), line), at),
            Part::Start => Ok(line_if(begins(b"from ", line))),
            Part::Data => data_line(line, at),
            Part::Blank => Ok(line_if(line.is_empty())),
            Part::Parent => self.parent_line(line, at),
            Part::Merges => self.merge_line(line, at),
            Part::Files => file_line(line, at),
        }
    }
}

ghost use Rattle.std.specs.Prelude.{◌≡◌, if◌then◌else◌, Ok, Err};
ghost use Rattle.fast_export.specs.declared.commits.Taken.TheVariants.{Line as the_line, Nothing as no_line};
ghost use Rattle.fast_export.specs.declared.fault.StreamFault.TheVariants.{BadLine as bad_line};
ghost use Rattle.fast_export.specs.Facts.{Facts, mark_line, data_line, file_line};
ghost use Rattle.fast_export.specs.Says.{Says};

fn line_if(takes: bool) -> Taken
    ensures { result ≡ (if takes then the_line else no_line) }
{
    if takes { Taken::Line } else { Taken::Nothing }
}

fn needed(takes: bool, at: u64) -> Result<Taken, StreamFault>
    ensures { result ≡ (if takes then Ok the_line else Err (bad_line at)) }
{
    if takes {
        Ok(Taken::Line)
    } else {
        Err(StreamFault::BadLine { at })
    }
}

#[tactic(auto, unfolding(crate::specs::Facts::mark_line))]
fn mark_line(line: &[u8], at: u64) -> Result<Taken, StreamFault>
    ensures { (f : Facts) → Says result f f (mark_line f at line.now) }
{
    let Some(text) = behind(b"mark ", line) else {
        return Ok(Taken::Nothing);
    };
    match mark_of(text) {
        Some(_) => Ok(Taken::Line),
        None => Err(StreamFault::BadLine { at }),
    }
}

#[tactic(auto, unfolding(crate::specs::Facts::data_line))]
fn data_line(line: &[u8], at: u64) -> Result<Taken, StreamFault>
    ensures { (f : Facts) → Says result f f (data_line at line.now) }
{
    let Some(text) = behind(b"data ", line) else {
        return Err(StreamFault::BadLine { at });
    };
    match read_u64(text) {
        Some(count) => Ok(Taken::Counts(count)),
        None => Err(StreamFault::BadData { at }),
    }
}

#[tactic(auto, unfolding(crate::specs::Facts::file_line))]
fn file_line(line: &[u8], at: u64) -> Result<Taken, StreamFault>
    ensures { (f : Facts) → Says result f f (file_line f at line.now) }
{
    if !is_file(line) {
        return Ok(Taken::Nothing);
    }
    if is_inline(line) {
        return Err(StreamFault::BadLine { at });
    }
    Ok(Taken::Line)
}
