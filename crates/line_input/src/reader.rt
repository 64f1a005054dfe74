ghost use Rattle.std.specs.Prelude.{◌≡◌, ◌<◌, ◌≤◌, ◌+◌, ◌*◌, ◌^◌, ◌∷◌, ◌++◌, [], Ok, IfSome, IfNone, IfOk, OnOk, IsErrOf, List, ℕ, length, get_or, ◌==◌, ◌≢◌, true, false, Some, Option};
ghost use Rattle.edge_io.specs.Causes.{Rose};
ghost use Rattle.line_input.specs.Lines.{NoneBefore};
ghost use Rattle.line_input.specs.Window.{items};

use crate::stop::ReadStop;
use crate::window::Window;
use edge_io::Source;
use memchr::memchr;
use std::alloc::Global;

/// What a reader of lines came to.
#[derive(Clone, Copy, Debug, PartialEq, Eq)]
pub enum Next {
    /// What was asked for is here.
    Here,
    /// The source was read to its end, within the limit.
    End,
    /// The source has more bytes than the limit.
    TooLarge,
}

/// A line, and its number, from 1, with the empty lines counted.
#[derive(Clone, Copy)]
pub struct NumberedLine<'a> {
    pub number: u64,
    pub text: &'a [u8],
}

/// Reads the lines of a source one after another, by pieces. It holds no more than the longest line and
/// one piece, and reads no more than one piece past its limit. Contracts see by `StandsIn` and `Holds`
/// where it stands in all that the source had.
#[derive(Drop)]
pub struct LineReader {
    window: Window,
    // The line that was given last: so many bytes at the front of the window, and with its line end.
    len: usize,
    given: usize,
    // How many lines were given, the empty ones among them.
    passed: u64,
    // How many bytes the source gave, and may give.
    taken: u64,
    limit: u64,
    ended: bool,
    ghost whole: { (len ≤ given) × (given ≤ length (items window)) },
    ghost counted: { passed + length (items window) ≤ taken + given },
    ghost fits: { (limit < 2 ^ 48) × (taken < 2 ^ 63 + limit + 1) },
}

impl LineReader {
    ghost use Rattle.line_input.specs.Reader.{Advances, Fills, GivesLine, GivesPiece, Holds, IsWithin, KnowsEnd, Marks, MindsEnd, StandsIn, current, given_count, line_pair, pending, to_come};

    /// A reader that stands at the front of its source, of which it takes at most `limit` bytes. It takes
    /// no memory.
    pub fn new(alloc: Global, limit: u64) -> LineReader
        requires { limit < 2 ^ 48 }
        ensures stands { (input : List ℕ) → StandsIn input result (Some input) }
        ensures end { (left : _) → KnowsEnd result left }
        ensures passed { result.passed ≡ 0 }
        ensures limit { result.limit ≡ limit }
    {
        LineReader {
            window: Window::new(alloc),
            len: 0,
            given: 0,
            passed: 0,
            taken: 0,
            limit,
            ended: false,
        }
    }

    /// How many bytes the reader takes of its source at most.
    pub fn limit(&self) -> u64
        ensures { result ≡ self.now.limit }
    {
        self.limit
    }

    /// The line or piece that was given last, with the number of the last line. Before the first it is empty.
    pub fn line(&self) -> NumberedLine<'_>
        ensures { line_pair result ≡ current self.now }
    {
        NumberedLine {
            number: self.passed,
            text: &self.window.as_slice()[..self.len],
        }
    }

    /// The next line that is not empty. At an error nothing is lost, and the call may be made again. After
    /// `End` it answers `End` again; after `TooLarge` it reads no more.
    pub fn next<S: Source>(&mut self, source: &mut S) -> Result<Next, ReadStop>
        ensures line { (input : List ℕ) → StandsIn input self.old (S.left source.old) → GivesLine input self.old self.new (S.left source.new) result }
        ensures fewer { result ≡ Ok Next.Here → to_come self.new < to_come self.old }
        ensures at_end { MindsEnd self.old self.new (S.left source.old) (S.left source.new) result }
        ensures limit { self.new.limit ≡ self.old.limit }
        ensures failed { IsErrOf result ReadStop.Source → Rose (S.faults source.old) (S.faults source.new) }
        ensures later { S.faults source.old ≤ S.faults source.new }
    {
        'lines: loop {
            match self.advance(source)? {
                Next::Here => {
                    if self.len > 0 {
                        return Ok(Next::Here);
                    }
                }
                other => return Ok(other),
            }
        }
    }

    /// The next piece of what is still to come, in place of lines: some bytes of it, as many as are here.
    /// At an error nothing is lost, and the call may be made again. After `End` it answers `End` again; after
    /// `TooLarge` it reads no more. All pieces together have fewer than 2^64 bytes.
    pub fn piece<S: Source>(&mut self, source: &mut S) -> Result<Next, ReadStop>
        ensures piece { (rest : List ℕ) → (total : ℕ) → Holds rest total self.old (S.left source.old) → GivesPiece rest total self.old self.new (S.left source.new) result }
        ensures fewer { result ≡ Ok Next.Here → to_come self.new < to_come self.old }
        ensures count { result ≡ Ok Next.Here → given_count self.old + length (current self.new).1 ≤ given_count self.new }
        ensures bound { given_count self.new < 2 ^ 64 }
        ensures at_end { MindsEnd self.old self.new (S.left source.old) (S.left source.new) result }
        ensures limit { self.new.limit ≡ self.old.limit }
        ensures failed { IsErrOf result ReadStop.Source → Rose (S.faults source.old) (S.faults source.new) }
        ensures later { S.faults source.old ≤ S.faults source.new }
    {
        self.settle();
        if self.window.as_slice().is_empty() {
            match self.fill(source)? {
                Next::Here => {}
                other => return Ok(other),
            }
        }
        self.give_all();
        Ok(Next::Here)
    }

    /// Reads on to the end of the source, or past the limit, and gives nothing: whether the end came within
    /// the limit. At an error nothing is lost, and the call may be made again.
    pub fn ends_within<S: Source>(&mut self, source: &mut S) -> Result<bool, ReadStop>
        ensures within { (rest : List ℕ) → (total : ℕ) → Holds rest total self.old (S.left source.old) → IfOk result (IsWithin self.old.limit total) }
        ensures limit { self.new.limit ≡ self.old.limit }
        ensures failed { IsErrOf result ReadStop.Source → Rose (S.faults source.old) (S.faults source.new) }
        ensures later { S.faults source.old ≤ S.faults source.new }
    {
        'pieces: loop {
            match self.piece(source)? {
                Next::Here => {}
                Next::End => return Ok(true),
                Next::TooLarge => return Ok(false),
            }
        }
    }

    // The next line, also an empty one.
    fn advance<S: Source>(&mut self, source: &mut S) -> Result<Next, ReadStop>
        ensures advances { (input : List ℕ) → StandsIn input self.old (S.left source.old) → Advances input self.old self.new (S.left source.new) result }
        ensures further { result ≡ Ok Next.Here → self.new.passed ≡ self.old.passed + 1 }
        ensures fewer { result ≡ Ok Next.Here → to_come self.new < to_come self.old }
        ensures at_end { MindsEnd self.old self.new (S.left source.old) (S.left source.new) result }
        ensures limit { self.new.limit ≡ self.old.limit }
        ensures failed { IsErrOf result ReadStop.Source → Rose (S.faults source.old) (S.faults source.new) }
        ensures later { S.faults source.old ≤ S.faults source.new }
    {
        self.settle();
        let mut searched = 0;
        'reading: loop {
            let text = self.window.as_slice();
            if let Some(at) = line_end(text, searched) {
                self.len = at;
                self.given = at + 1;
                self.passed += 1;
                return Ok(Next::Here);
            }
            searched = text.len();
            match self.fill(source)? {
                Next::Here => {} // More of the same line.
                Next::End => return Ok(self.last_line()),
                Next::TooLarge => return Ok(Next::TooLarge),
            }
        }
    }

    // What was given last is given up.
    fn settle(&mut self)
        ensures marks { Marks (pending self.old) 0 0 self.old.passed self.old self.new }
        ensures holds { (rest : List ℕ) → (total : ℕ) → (left : Option (List ℕ)) → Holds rest total self.old left → Holds rest total self.new left }
    {
        let given = self.given;
        self.len = 0;
        self.given = 0;
        self.window.consume(given);
    }

    // All that was read is given, as one piece.
    fn give_all(&mut self)
        ensures { Marks (items self.old.window) (length (items self.old.window)) (length (items self.old.window)) self.old.passed self.old self.new }
    {
        let len = self.window.as_slice().len();
        self.len = len;
        self.given = len;
    }

    // At the end of the source: what stands behind the last line end is a line, if it isn't empty.
    fn last_line(&mut self) -> Next
        requires given { self.old.given ≡ 0 }
        ensures here { result ≡ Next.Here → Marks (items self.old.window) (length (items self.old.window)) (length (items self.old.window)) (self.old.passed + 1) self.old self.new × (0 < length (items self.old.window)) }
        ensures end { result ≡ Next.End → (self.new ≡ self.old) × (items self.old.window ≡ []) }
        ensures either { result ≢ Next.TooLarge }
    {
        if self.window.as_slice().is_empty() {
            return Next::End;
        }
        self.give_all();
        self.passed += 1;
        Next::Here
    }

    // Reads one more piece behind what is here.
    fn fill<S: Source>(&mut self, source: &mut S) -> Result<Next, ReadStop>
        requires { self.old.given ≡ 0 }
        ensures fills { Fills self.old self.new (S.left source.old) (S.left source.new) result }
        ensures at_end { MindsEnd self.old self.new (S.left source.old) (S.left source.new) result }
        ensures failed { IsErrOf result ReadStop.Source → Rose (S.faults source.old) (S.faults source.new) }
        ensures later { S.faults source.old ≤ S.faults source.new }
    {
        if self.is_over() {
            return Ok(Next::TooLarge);
        }
        if self.ended {
            return Ok(Next::End);
        }
        self.window.make_room()?;
        let count = self.window.read_from(source)?;
        self.taken += count as u64;
        if count == 0 {
            self.ended = true;
            return Ok(Next::End);
        }
        if self.is_over() {
            return Ok(Next::TooLarge);
        }
        Ok(Next::Here)
    }

    fn is_over(&self) -> bool
        ensures over { result ≡ true → self.now.limit < self.now.taken }
        ensures within { result ≡ false → self.now.taken ≤ self.now.limit }
    {
        self.taken > self.limit
    }
}

// The first line end of a text that has none before `searched`.
fn line_end(text: &[u8], searched: usize) -> Option<usize>
    requires within { searched ≤ length text.now }
    requires none { NoneBefore text.now searched }
    ensures some { IfSome result (λ at. (at < length text.now) × NoneBefore text.now at × ((get_or text.now at 0 == 10) ≡ true)) }
    ensures none { IfNone result (NoneBefore text.now (length text.now)) }
{
    match memchr(b'\n', &text[searched..]) {
        Some(at) => Some(searched + at),
        None => None,
    }
}
