ghost use Rattle.std.specs.Prelude.{◌≡◌, ◌≤◌, ◌∷◌, [], ◌++◌, List, ℕ, Ok, IfOk, IfErr, IsOk, IsErrOf, IsSome, length, map, string_bytes, codes};
ghost use Rattle.std.specs.Arc.{arc_value};
ghost use Rattle.std.specs.Fmt.{decimal};
ghost use Rattle.std.specs.Io.KnownBytes.{IsAtEnd};
ghost use Rattle.edge_io.specs.Causes.{Rose};
ghost use Rattle.osv_prim.specs.Results.{Gives, each};
ghost use Rattle.evaluate.specs.Hits.{Repo};
ghost use Rattle.fast_export.specs.Reads.{Reads};
ghost use Rattle.line_input.specs.Reader.{Holds, KnowsEnd};
ghost use Rattle.settings.specs.declared.TheConstants.{MAX_COMMITS};
ghost use Rattle.ask.specs.Commits.{graph_in, graph_of_rows, refused_at, refused_commits, repos_of, rows_of};
ghost use Rattle.ask.specs.Line.{read_line};
ghost use Rattle.ask.specs.Parts.{Parts};
ghost use Rattle.ask.specs.Stops.{FeedsStream, GraphStops, MindsRepo, NamesRepo, Stops};

use crate::stop::InputStop;
use commit_graph::{Graph, GraphFault};
use edge_io::Source;
use fast_export::{Reader, StreamFault};
use line_input::{LineReader, Next, ReadStop};
use osv_prim::{CommitRow, Ledger, Memory, RepoKey, Steps, Stop};
use settings::MAX_COMMITS;
use std::alloc::{AllocError, Global};
use std::sync::Arc;

/// Why no graph is made of a stream.
#[derive(Clone, Copy, Debug, PartialEq, Eq)]
pub enum CommitFault {
    /// The stream has a fault.
    Stream(StreamFault),
    /// A row of it has one.
    Graph(GraphFault),
}

/// The repositories that an input names, one at most, each with the graph of its commits, whose stream the
/// reader stands before.
pub fn repos_of<S: Source, L: Ledger>(
    alloc: Global,
    named: Option<RepoKey>,
    reader: &mut LineReader,
    source: &mut S,
    steps: &mut Steps<L>,
) -> Result<Vec<(RepoKey, Arc<Graph>)>, InputStop>
    ensures repos { IfOk result (λ v. (input : List ℕ) → (parts : Parts) → NamesRepo input parts.repo named reader.old (S.left source.old)
        → (repos_of parts.repo ≡ Ok (map (λ g. (g.0, arc_value g.1)) v.items)) × (length input ≤ reader.old.limit)) }
    ensures stops { IfErr result (λ e. (input : List ℕ) → (parts : Parts) → IsOk (each read_line parts.advisories) → NamesRepo input parts.repo named reader.old (S.left source.old)
        → Stops input parts e reader.new (S.left source.new)) }
    ensures end { IsOk result → MindsRepo named reader.old (S.left source.old) → IsAtEnd (S.left source.new) }
    ensures limit { reader.new.limit ≡ reader.old.limit }
    ensures failed { IsErrOf result (InputStop.Read ReadStop.Source) → Rose (S.faults source.old) (S.faults source.new) }
    ensures later { S.faults source.old ≤ S.faults source.new }
{
    match named {
        None => Ok(Vec::new(alloc)),
        Some(key) => {
            let graph = graph_behind(alloc, reader, source, steps)?;
            Ok(one_repo(alloc, key, graph)?)
        }
    }
}

fn one_repo(alloc: Global, key: RepoKey, graph: Graph) -> Result<Vec<(RepoKey, Arc<Graph>)>, Memory>
    ensures { IfOk result (λ v. let repo : Repo = (key, graph) in map (λ g. (g.0, arc_value g.1)) v.items ≡ repo ∷ []) }
{
    let mut repos = Vec::new(alloc);
    repos.push((key, Arc::new(alloc, graph)?))?;
    Ok(repos)
}

fn graph_behind<S: Source, L: Ledger>(
    alloc: Global,
    reader: &mut LineReader,
    source: &mut S,
    steps: &mut Steps<L>,
) -> Result<Graph, InputStop>
    ensures graph { IfOk result (λ g. (text : List ℕ) → (total : ℕ) → Holds text total reader.old (S.left source.old) → (graph_in text ≡ Ok g) × (total ≤ reader.old.limit)) }
    ensures stops { IfErr result (λ e. (text : List ℕ) → (total : ℕ) → Holds text total reader.old (S.left source.old) → GraphStops text total reader.old.limit e) }
    ensures end { IsOk result → KnowsEnd reader.old (S.left source.old) → IsAtEnd (S.left source.new) }
    ensures limit { reader.new.limit ≡ reader.old.limit }
    ensures failed { IsErrOf result (InputStop.Read ReadStop.Source) → Rose (S.faults source.old) (S.faults source.new) }
    ensures later { S.faults source.old ≤ S.faults source.new }
{
    match read_stream(alloc, reader, source)? {
        Some(stream) => Ok(graph_of(alloc, stream, steps)?),
        None => Err(InputStop::TooLarge),
    }
}

// The stream is never held, and a fault of it is told only once the input is known to be within the limit.
fn read_stream<S: Source>(
    alloc: Global,
    reader: &mut LineReader,
    source: &mut S,
) -> Result<Option<Reader>, ReadStop>
    ensures feeds { IfOk result (λ s. (text : List ℕ) → (total : ℕ) → Holds text total reader.old (S.left source.old) → FeedsStream text total reader.old.limit s) }
    ensures end { IfOk result (λ s. IsSome s → KnowsEnd reader.old (S.left source.old) → IsAtEnd (S.left source.new)) }
    ensures limit { reader.new.limit ≡ reader.old.limit }
    ensures failed { IsErrOf result ReadStop.Source → Rose (S.faults source.old) (S.faults source.new) }
    ensures later { S.faults source.old ≤ S.faults source.new }
{
    let mut stream = Reader::new(alloc, MAX_COMMITS)?;
    'pieces: loop {
        match reader.piece(source)? {
            Next::Here => {}
            Next::End => return Ok(Some(stream)),
            Next::TooLarge => return Ok(None),
        }
        // A fault stays in the stream's reader, which answers it at its end.
        let _ = stream.feed(reader.line().text);
    }
}

#[tactic(auto, unfolding(crate::specs::Commits::graph_in))]
fn graph_of<L: Ledger>(
    alloc: Global,
    stream: Reader,
    steps: &mut Steps<L>,
) -> Result<Graph, Stop<CommitFault>>
    ensures { (text : List ℕ) → Reads MAX_COMMITS text stream → Gives (λ g. g) result (graph_in text) }
{
    let rows = rows_of(stream)?;
    graph_of_rows(alloc, rows, steps)
}

#[tactic(auto, unfolding(crate::specs::Commits::rows_of))]
fn rows_of(stream: Reader) -> Result<osv_prim::List<CommitRow>, Stop<CommitFault>>
    ensures { (text : List ℕ) → Reads MAX_COMMITS text stream → Gives (λ r. r) result (rows_of text) }
{
    match stream.finish() {
        Ok(rows) => Ok(rows),
        Err(StreamFault::Memory) => Err(Stop::Memory),
        Err(fault) => Err(Stop::Refused(CommitFault::Stream(fault))),
    }
}

#[tactic(auto, unfolding(crate::specs::Commits::graph_of_rows))]
fn graph_of_rows<L: Ledger>(
    alloc: Global,
    rows: osv_prim::List<CommitRow>,
    steps: &mut Steps<L>,
) -> Result<Graph, Stop<CommitFault>>
    ensures { Gives (λ g. g) result (graph_of_rows rows) }
{
    match Graph::of_rows(alloc, rows, MAX_COMMITS, steps) {
        Ok(graph) => Ok(graph),
        Err(GraphFault::Memory) => Err(Stop::Memory),
        Err(fault) => Err(Stop::Refused(CommitFault::Graph(fault))),
    }
}

/// The line that says why there is no graph.
pub fn refused_commits(alloc: Global, fault: CommitFault) -> Result<String, AllocError>
    ensures { IfOk result (λ t. string_bytes t ≡ refused_commits fault) }
{
    match fault {
        CommitFault::Stream(fault) => {
            refused_stream(alloc, fault.code(), fault.name(), fault.at())
        }
        CommitFault::Graph(fault) => refused_graph(alloc, fault.code(), fault.name(), fault.row()),
    }
}

fn refused_stream(alloc: Global, code: u8, name: &str, at: u64) -> Result<String, AllocError>
    ensures { IfOk result (λ t. string_bytes t ≡ refused_at (codes "stream") code name.now (codes " at ") at) }
{
    format!(in alloc; "refused stream {code} {name} at {at}\n")
}

fn refused_graph(alloc: Global, code: u8, name: &str, row: u64) -> Result<String, AllocError>
    ensures { IfOk result (λ t. string_bytes t ≡ refused_at (codes "graph") code name.now (codes " at row ") row) }
{
    format!(in alloc; "refused graph {code} {name} at row {row}\n")
}
