ghost use Rattle.stream_body.specs.Streams.{Comes};

use fast_export::{Reader, StreamFault};
use osv_prim::{CommitRow, List};
use std::alloc::Global;

/// What came of a stream of commits: its rows, or why there are none.
pub type Commits = Result<List<CommitRow>, StreamFault>;

/// The commits of a body that is there as a whole, of which at most `most` may come.
pub fn commits_in(alloc: Global, body: &[u8], most: u32) -> Commits
    ensures { Comes most body.now result }
{
    let mut reader = Reader::new(alloc, most)?;
    reader.feed(body)?;
    reader.finish()
}
