ghost use Rattle.std.specs.Prelude.{◌≡◌};

use osv_prim::Memory;
use std::alloc::AllocError;

/// Why rows are not joined to a graph. `row` is the index of the first faulty row in the list that is
/// joined, from 0. In one row the faults are looked for in the order `ParentsDiffer`, `SelfParent`,
/// `UnknownParent`, `TooMany`.
#[derive(Clone, Copy, Debug, PartialEq, Eq)]
pub enum GraphFault {
    /// A parent is neither in the graph nor an earlier row.
    UnknownParent { row: u64 },
    /// The commit is in the graph, or an earlier row, with other parents or in another order.
    ParentsDiffer { row: u64 },
    /// The commit is its own parent.
    SelfParent { row: u64 },
    /// The commit is new, and the graph has as many rows as it may have.
    TooMany { row: u64 },
    /// Want of memory.
    Memory,
}

impl GraphFault {
    ghost use Rattle.commit_graph.specs.Faults.{code_of, name_of, row_of};

    /// The index of the faulty row in the list that is joined, from 0. It is 0 for want of memory.
    pub fn row(&self) -> u64
        ensures { result ≡ row_of self.now }
    {
        match *self {
            GraphFault::UnknownParent { row }
            | GraphFault::ParentsDiffer { row }
            | GraphFault::SelfParent { row }
            | GraphFault::TooMany { row } => row,
            GraphFault::Memory => 0,
        }
    }

    /// The number under which the fault is printed, from 1 to 5 in the order of the variants.
    pub fn code(&self) -> u8
        ensures { result ≡ code_of self.now }
    {
        match self {
            GraphFault::UnknownParent { .. } => 1,
            GraphFault::ParentsDiffer { .. } => 2,
            GraphFault::SelfParent { .. } => 3,
            GraphFault::TooMany { .. } => 4,
            GraphFault::Memory => 5,
        }
    }

    /// The name under which the fault is printed, that of its variant.
    pub fn name(&self) -> &'static str
        ensures { result.now ≡ name_of self.now }
    {
        match self {
            GraphFault::UnknownParent { .. } => "UnknownParent",
            GraphFault::ParentsDiffer { .. } => "ParentsDiffer",
            GraphFault::SelfParent { .. } => "SelfParent",
            GraphFault::TooMany { .. } => "TooMany",
            GraphFault::Memory => "Memory",
        }
    }
}

impl From<Memory> for GraphFault {
    ghost use Rattle.commit_graph.specs.declared.fault.GraphFault.TheVariants.{Memory as no_memory};

    ghost from_gives = { λ _ e. e ≡ no_memory };

    fn from(_refused: Memory) -> GraphFault {
        GraphFault::Memory
    }
}

impl From<AllocError> for GraphFault {
    ghost use Rattle.commit_graph.specs.declared.fault.GraphFault.TheVariants.{Memory as no_memory};

    ghost from_gives = { λ _ e. e ≡ no_memory };

    fn from(_refused: AllocError) -> GraphFault {
        GraphFault::Memory
    }
}
