ghost use Rattle.std.specs.Prelude.{◌≡◌};
ghost use Rattle.fast_export.specs.Grammar.{word_text, may_end, repeats, commit_parts, blob_parts, tag_parts, reset_parts, parts_of, is_done, promises};

/// The word at the front of a line, with the space behind it.
#[derive(Clone, Copy, Debug, PartialEq, Eq)]
pub(crate) enum Word {
    OriginalOid,
    Author,
    Committer,
    Encoding,
    Tagger,
    From,
}

/// A part of a command, behind its first line.
#[derive(Clone, Copy, Debug, PartialEq, Eq)]
pub(crate) enum Part {
    /// The mark of a blob or a tag, which may lack.
    Mark,
    /// The mark of a commit, which may lack.
    CommitMark,
    /// The id of a commit.
    CommitId,
    /// A line that begins with the word, and may lack.
    May(Word),
    /// A line that begins with the word.
    Needs(Word),
    /// The start of a reset, which may lack.
    Start,
    /// The line `data`, and the bytes that it counts.
    Data,
    /// A line feed, which may lack.
    Blank,
    /// The first parent of a commit, which may lack.
    Parent,
    /// Further parents.
    Merges,
    /// The files of a commit.
    Files,
}

/// What the first line of a command says.
#[derive(Clone, Copy, Debug, PartialEq, Eq)]
pub(crate) enum Command {
    Commit,
    Blob,
    Tag,
    Reset,
    /// A line that stands alone.
    Note,
    /// The line `feature done`: a line `done` has to come.
    Promise,
    /// The line `done`.
    Done,
}

impl Word {
    pub(crate) fn text(self) -> &'static [u8]
        ensures { result.now ≡ word_text self }
    {
        match self {
            Word::OriginalOid => b"original-oid ",
            Word::Author => b"author ",
            Word::Committer => b"committer ",
            Word::Encoding => b"encoding ",
            Word::Tagger => b"tagger ",
            Word::From => b"from ",
        }
    }
}

impl Part {
    /// Whether a stream may end where this part comes next.
    pub(crate) fn may_end(self) -> bool
        ensures { result ≡ may_end self }
    {
        matches!(
            self,
            Part::Start | Part::Blank | Part::Parent | Part::Merges | Part::Files
        )
    }

    /// Whether the part may come more than once.
    pub(crate) fn repeats(self) -> bool
        ensures { result ≡ repeats self }
    {
        matches!(self, Part::Merges | Part::Files)
    }
}

fn commit_parts() -> &'static [Part]
    ensures { result.now ≡ commit_parts }
{
    &[
        Part::CommitMark,
        Part::CommitId,
        Part::May(Word::Author),
        Part::Needs(Word::Committer),
        Part::May(Word::Encoding),
        Part::Data,
        Part::Blank,
        Part::Parent,
        Part::Merges,
        Part::Files,
        Part::Blank,
    ]
}

fn blob_parts() -> &'static [Part]
    ensures { result.now ≡ blob_parts }
{
    &[
        Part::Mark,
        Part::May(Word::OriginalOid),
        Part::Data,
        Part::Blank,
    ]
}

fn tag_parts() -> &'static [Part]
    ensures { result.now ≡ tag_parts }
{
    &[
        Part::Mark,
        Part::Needs(Word::From),
        Part::May(Word::OriginalOid),
        Part::May(Word::Tagger),
        Part::Data,
        Part::Blank,
    ]
}

fn reset_parts() -> &'static [Part]
    ensures { result.now ≡ reset_parts }
{
    &[Part::Start]
}

impl Command {
    /// The parts that follow the first line.
    pub(crate) fn parts(self) -> &'static [Part]
        ensures { result.now ≡ parts_of self }
    {
        match self {
            Command::Commit => commit_parts(),
            Command::Blob => blob_parts(),
            Command::Tag => tag_parts(),
            Command::Reset => reset_parts(),
            Command::Note | Command::Promise | Command::Done => &[],
        }
    }

    pub(crate) fn is_done(self) -> bool
        ensures { result ≡ is_done self }
    {
        matches!(self, Command::Done)
    }

    pub(crate) fn promises(self) -> bool
        ensures { result ≡ promises self }
    {
        matches!(self, Command::Promise)
    }
}
