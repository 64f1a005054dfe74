ghost use Rattle.std.specs.Prelude.{◌≡◌, Ok, Err, ◌≢◌, [], ◌+◌, ◌<◌, ◌≤◌, not, true, length, map, All, Some, None, IsTrue, IfOk, OnOk, IfErr};
ghost use Rattle.std.specs.List.{list_all};
ghost use Rattle.osv_prim.specs.Graphs.{has, id_at, with_row, joined, IsLegal};
ghost use Rattle.commit_graph.specs.Extended.{extended};
ghost use Rattle.commit_graph.specs.Faults.{fault_of, IsSound, IsFirstFault};

use crate::fault::GraphFault;
use crate::graph::Graph;
use osv_prim::{CommitRow, Ledger, List, Memory, Oid, Steps};
use std::alloc::Global;

impl Graph {
    /// The graph with rows joined: its own rows, and then each row whose commit isn't there yet. A row
    /// whose commit is there with the same parents in the same order is passed over. `most` is how many
    /// commits the result may have, its own and new ones together; rows that are passed over don't count,
    /// and a graph that has more already takes only such rows. The first faulty row refuses them all, by
    /// the variant of `GraphFault` that tells why. The graph itself stays as it is, and the result shares
    /// its rows. It counts at most one graph step for each of the given rows.
    pub fn extend<L: Ledger>(
        &self,
        alloc: Global,
        rows: &[CommitRow],
        most: u32,
        steps: &mut Steps<L>,
    ) -> Result<Graph, GraphFault>
        ensures joined { IfOk result (λ g. g ≡ joined self.now rows.now) }
        ensures sound { OnOk result (IsSound self.now most rows.now) }
        ensures fault { IfErr result (λ e. e ≢ GraphFault.Memory → IsFirstFault self.now most rows.now e) }
        ensures legal { IfOk result IsLegal }

        // The same as a function of the rows.
        ensures value { IfOk result (λ g. extended self.now most rows.now ≡ Ok g) }
        ensures refused { IfErr result (λ e. e ≢ GraphFault.Memory → extended self.now most rows.now ≡ Err e) }
        ensures steps { steps.new.graph ≤ steps.old.graph + length rows.now }
        ensures records { steps.new.record_count ≡ steps.old.record_count }
    {
        let mut graph = self.copy(alloc, rows.len().saturating_sub(self.len() as usize))?;
        let mut numbers = Vec::new(alloc);
        for (index, row) in rows.iter().enumerate() {
            graph = joined_by(alloc, graph, row, index as u64, most, &mut numbers, steps)?;
        }
        let graph = graph.sealed(alloc)?;
        // Its contract tells that the graph is legal.
        let _ = graph.len();
        Ok(graph)
    }

    /// The graph of rows, as `empty` and then `extend` give it, with the same faults and without a copy of
    /// the rows. It counts at most one graph step for each of them.
    pub fn of_rows<L: Ledger>(
        alloc: Global,
        rows: List<CommitRow>,
        most: u32,
        steps: &mut Steps<L>,
    ) -> Result<Graph, GraphFault>
        ensures joined { IfOk result (λ g. g ≡ joined [] rows) }
        ensures sound { OnOk result (IsSound [] most rows) }
        ensures fault { IfErr result (λ e. e ≢ GraphFault.Memory → IsFirstFault [] most rows e) }
        ensures legal { IfOk result IsLegal }

        // The same as a function of the rows.
        ensures value { IfOk result (λ g. extended [] most rows ≡ Ok g) }
        ensures refused { IfErr result (λ e. e ≢ GraphFault.Memory → extended [] most rows ≡ Err e) }
        ensures steps { steps.new.graph ≤ steps.old.graph + length rows }
        ensures records { steps.new.record_count ≡ steps.old.record_count }
    {
        let mut graph = Graph::with_capacity(alloc, rows.len())?;
        let mut numbers = Vec::new(alloc);
        let mut index = 0u64;
        for row in rows.into_vec() {
            graph = joined_with(graph, row, index, most, &mut numbers, steps)?;
            index += 1;
        }
        let graph = graph.sealed(alloc)?;
        // Its contract tells that the graph is legal.
        let _ = graph.len();
        Ok(graph)
    }

    // The numbers of commits, in order, or false where one isn't there.
    fn find_all(&self, oids: &[Oid], numbers: &mut Vec<u32>) -> Result<bool, Memory>
        ensures all { IfOk result (λ all. all ≡ list_all (has self.now) oids.now) }
        ensures named { IfOk result (λ all. IsTrue all → map (id_at self.now) numbers.new.items ≡ oids.now) }
        ensures below { IfOk result (λ all. IsTrue all → All (λ n. n < length self.now) numbers.new.items) }
    {
        numbers.clear();
        for oid in oids {
            match self.number_of(oid) {
                Some(number) => numbers.push(number)?,
                None => return Ok(false),
            }
        }
        Ok(true)
    }
}

// The graph and a row, unless its commit is there already. `numbers` is room to work in.
fn joined_by<L: Ledger>(
    alloc: Global,
    graph: Graph,
    row: &CommitRow,
    index: u64,
    most: u32,
    numbers: &mut Vec<u32>,
    steps: &mut Steps<L>,
) -> Result<Graph, GraphFault>
    ensures joined { IfOk result (λ g. g ≡ with_row graph row.now) }
    ensures sound { OnOk result (fault_of graph most index row.now ≡ None) }
    ensures fault { IfErr result (λ e. e ≢ GraphFault.Memory → fault_of graph most index row.now ≡ Some e) }
    ensures steps { steps.new.graph ≤ steps.old.graph + 1 }
    ensures records { steps.new.record_count ≡ steps.old.record_count }
{
    if is_new(&graph, row, index, most, numbers, steps)? {
        Ok(graph.with_row(row.copy(alloc)?, numbers.as_slice())?)
    } else {
        Ok(graph)
    }
}

// As `joined_by`, with a row that is given away.
fn joined_with<L: Ledger>(
    graph: Graph,
    row: CommitRow,
    index: u64,
    most: u32,
    numbers: &mut Vec<u32>,
    steps: &mut Steps<L>,
) -> Result<Graph, GraphFault>
    ensures joined { IfOk result (λ g. g ≡ with_row graph row) }
    ensures sound { OnOk result (fault_of graph most index row ≡ None) }
    ensures fault { IfErr result (λ e. e ≢ GraphFault.Memory → fault_of graph most index row ≡ Some e) }
    ensures steps { steps.new.graph ≤ steps.old.graph + 1 }
    ensures records { steps.new.record_count ≡ steps.old.record_count }
{
    if is_new(&graph, &row, index, most, numbers, steps)? {
        Ok(graph.with_row(row, numbers.as_slice())?)
    } else {
        Ok(graph)
    }
}

// Whether the row's commit isn't there yet. Then `numbers` are those of its parents.
fn is_new<L: Ledger>(
    graph: &Graph,
    row: &CommitRow,
    index: u64,
    most: u32,
    numbers: &mut Vec<u32>,
    steps: &mut Steps<L>,
) -> Result<bool, GraphFault>
    ensures new { IfOk result (λ new. new ≡ not (has graph.now row.now.oid)) }
    ensures named { IfOk result (λ new. IsTrue new → map (id_at graph.now) numbers.new.items ≡ row.now.parents) }
    ensures below { IfOk result (λ new. IsTrue new → All (λ n. n < length graph.now) numbers.new.items) }
    ensures room { IfOk result (λ new. IsTrue new → length graph.now < most) }
    ensures sound { OnOk result (fault_of graph.now most index row.now ≡ None) }
    ensures fault { IfErr result (λ e. e ≢ GraphFault.Memory → fault_of graph.now most index row.now ≡ Some e) }
    ensures steps { steps.new.graph ≤ steps.old.graph + 1 }
    ensures records { steps.new.record_count ≡ steps.old.record_count }
{
    let parents = row.parents.as_slice();
    if let Some(number) = graph.number_of(&row.oid) {
        if graph.row_at(number, steps).parents.as_slice() == parents {
            return Ok(false);
        }
        return Err(GraphFault::ParentsDiffer { row: index });
    }
    if parents.contains(&row.oid) {
        return Err(GraphFault::SelfParent { row: index });
    }
    if !graph.find_all(parents, numbers)? {
        return Err(GraphFault::UnknownParent { row: index });
    }
    if graph.len() >= most {
        return Err(GraphFault::TooMany { row: index });
    }
    Ok(true)
}
