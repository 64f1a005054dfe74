ghost use Rattle.std.specs.Prelude.{◌≡◌, ◌+◌, ◌≤◌};
ghost use Rattle.osv_prim.specs.Counts.{none_yet};

use std::marker::{Brand, Model};
pub use std::sync::ledger::Ledger;
use std::sync::ledger::{Blank, Book, Share};

/// The ledger of a counter that keeps nothing at run time.
pub type Unkept = Brand;

/// How many steps were taken, which contracts see as two counts without bound. It takes no bytes, and
/// its ticks do nothing at run time.
#[derive(Drop)]
pub struct Steps<L: Ledger> {
    book: Book<L>,
    graph: Share<L>,
    records: Share<L>,
}

impl<L: Ledger> Model for Steps<L> {
    ghost use Rattle.std.specs.Prelude.{ℕ, ◌<◌};
    ghost use Rattle.osv_prim.specs.Counts.{Counts};

    ghost Value = { Counts };

    ghost view = { λ s. record { graph = s.graph.amount; record_count = s.records.amount } };

    ghost invariant = { λ s. (0 < s.graph.parts) × (0 < s.records.parts) };
}

impl<L: Ledger> Steps<L> {
    /// A counter at 0, which only who holds the runtime can make. `blank` is a new ledger of two parts,
    /// as `Blank::new(2)`, for which `L` stands.
    pub fn start(_rt: &HostRuntime, blank: Blank) -> Steps<L>
        requires name { blank.name ≡ L.name }
        requires parts { blank.parts ≡ L.parts }
        requires two { 2 ≤ blank.parts }
        ensures { result ≡ none_yet }
    {
        let (book, mut graph) = blank.open::<L>();
        let records = graph.split_off(1, 0);
        Steps {
            book,
            graph,
            records,
        }
    }

    /// Counts a step on a graph's rows.
    pub fn graph_tick(&mut self)
        ensures { self.new ≡ record self.old { graph = self.old.graph + 1 } }
    {
        self.book.add(&mut self.graph, 1);
    }

    /// Counts a read of an advisory.
    pub fn record_tick(&mut self)
        ensures { self.new ≡ record self.old { record_count = self.old.record_count + 1 } }
    {
        self.book.add(&mut self.records, 1);
    }
}
