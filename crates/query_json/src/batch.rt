ghost use Rattle.std.specs.Prelude.{◌≡◌, ◌≢◌, ◌≤◌, Ok, Err, IfOk, IfErr, OnOk, length};
ghost use Rattle.osv_prim.specs.Results.{Gives};
ghost use Rattle.json_view.specs.Views.{element_values, node_value};
ghost use Rattle.query_json.specs.Batches.{batch, batch_of, list_of_queries, numbered_query, queries_from, whole};

use crate::fault::{BatchFault, QueryFault};
use crate::members::object_or;
use crate::query::{Query, document_of, query_of};
use json_view::{Buffers, Elements, Node};
use osv_prim::{List, Stop};
use std::alloc::Global;

const MOST_QUERIES: usize = 1000;

fn whole(fault: QueryFault) -> BatchFault
    ensures { result ≡ whole fault }
{
    BatchFault { index: None, fault }
}

#[tactic(auto, unfolding(crate::specs::Batches::list_of_queries))]
fn list_of_queries<'t, 'a>(node: Node<'t, 'a>) -> Result<Elements<'t, 'a>, Stop<BatchFault>>
    ensures value { Gives element_values result (list_of_queries (node_value node.entry)) }
    ensures few { IfOk result (λ e. length (element_values e) ≤ 1000) }
{
    if !node.is_object() {
        return Err(Stop::Refused(whole(QueryFault::NotObject)));
    }
    let Some(queries) = node.member("queries") else {
        return Err(Stop::Refused(whole(QueryFault::NoQueries)));
    };
    let Some(elements) = queries.elements() else {
        return Err(Stop::Refused(whole(QueryFault::NoQueries)));
    };
    if elements.len() > MOST_QUERIES {
        return Err(Stop::Refused(whole(QueryFault::TooManyQueries)));
    }
    Ok(elements)
}

// The query at an index of the list.
fn query_at(alloc: Global, index: u32, node: Node) -> Result<Query, Stop<BatchFault>>
    ensures { Gives (λ q. q) result (numbered_query (index, node_value node.entry)) }
{
    match query_of(alloc, node) {
        Ok(query) => Ok(query),
        Err(Stop::Memory) => Err(Stop::Memory),
        Err(Stop::Refused(fault)) => Err(Stop::Refused(BatchFault {
            index: Some(index),
            fault,
        })),
    }
}

fn queries_of(alloc: Global, mut elements: Elements) -> Result<List<Query>, Stop<BatchFault>>
    requires { length (element_values elements) ≤ 1000 }
    ensures { Gives (λ l. l) result (queries_from 0 (element_values elements.entry)) }
{
    let mut queries = List::with_capacity(alloc, elements.len())?;
    let mut index = 0;
    while let Some(node) = elements.next() {
        queries.push(query_at(alloc, index, node)?)?;
        index += 1;
    }
    Ok(queries)
}

#[tactic(auto, unfolding(crate::specs::Batches::batch_of))]
fn batch_of(alloc: Global, node: Node) -> Result<List<Query>, Stop<BatchFault>>
    ensures { Gives (λ l. l) result (batch_of (node_value node.entry)) }
{
    let elements = list_of_queries(node)?;
    queries_of(alloc, elements)
}

#[tactic(auto, unfolding(crate::specs::Batches::batch))]
fn batch_from(
    alloc: Global,
    bytes: &[u8],
    buffers: &mut Buffers,
) -> Result<List<Query>, Stop<BatchFault>>
    ensures { Gives (λ l. l) result (batch bytes.now) }
{
    match document_of(alloc, bytes, buffers) {
        Ok(document) => batch_of(alloc, document.root()),
        Err(Stop::Memory) => Err(Stop::Memory),
        Err(Stop::Refused(fault)) => Err(Stop::Refused(whole(fault))),
    }
}

/// The queries that bytes are (OSV.dev API v1, "POST /v1/querybatch"), in their order, or the first
/// refusal. All are read in one pass over the bytes.
pub fn read_batch(alloc: Global, bytes: &[u8]) -> Result<Vec<Query>, BatchFault>
    ensures value { IfOk result (λ v. batch bytes.now ≡ Ok v.items) }
    ensures refused { IfErr result (λ e. e.fault ≢ QueryFault.Memory → batch bytes.now ≡ Err e) }
{
    read_batch_in(alloc, bytes, &mut Buffers::new(alloc))
}

/// The same, in buffers that are kept from one body to the next, which is faster for many.
pub fn read_batch_in(
    alloc: Global,
    bytes: &[u8],
    buffers: &mut Buffers,
) -> Result<Vec<Query>, BatchFault>
    ensures value { IfOk result (λ v. batch bytes.now ≡ Ok v.items) }
    ensures refused { IfErr result (λ e. e.fault ≢ QueryFault.Memory → batch bytes.now ≡ Err e) }
{
    match batch_from(alloc, bytes, buffers) {
        Ok(queries) => Ok(queries.into_vec()),
        Err(Stop::Memory) => Err(whole(QueryFault::Memory)),
        Err(Stop::Refused(fault)) => Err(fault),
    }
}
