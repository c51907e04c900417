//! The graph that is given by the neighbours of each vertex, in one list that is cut by offsets (CSR).
//!
//! The offsets and the entries are tested first, so that what is refused takes no memory. Then each entry becomes an edge.
ghost use Rattle.std.specs.Prelude.{◌≡◌, ◌≤◌, ◌<◌, ◌++◌, None, IfOk, IfErr, OnOk, length, nat_lt, not, ◌+◌, slice_index};
ghost use Rattle.std.specs.List.{position};
ghost use Rattle.kc_shard.specs.Shards.{shard_row};
ghost use Rattle.kc_c.specs.Csr.{AreRows, first_descent, graph_of_rows, row_edges, rows_edges, csr_fault, rows_refusal};

use crate::answer::Refusal;
use kc_graph::{Edge, Graph, NoMemory};
use kc_shard::ShardFault;
use std::alloc::Global;

/// Where the first offset stands that is less than the one before it.
fn first_descent(offsets: &[u64]) -> Option<usize>
    ensures { result ≡ first_descent 0 0 offsets.now }
{
    let mut last = 0;
    for (place, offset) in offsets.iter().enumerate() {
        if *offset < last {
            return Some(place);
        }
        last = *offset;
    }
    None
}

/// Where the first entry stands that is no vertex.
fn first_outlier(vertices: u32, neighbours: &[u32]) -> Option<usize>
    ensures { result ≡ position (λ w. not (nat_lt w vertices)) neighbours.now }
{
    neighbours.iter().position(|w| !(*w < vertices))
}

/// What is wrong with rows for so many vertices.
fn csr_fault(vertices: u32, offsets: &[u64], neighbours: &[u32]) -> Option<ShardFault>
    ensures { result ≡ csr_fault vertices offsets.now neighbours.now }
{
    let last = vertices as usize;
    if offsets.len() != last + 1 {
        return Some(ShardFault::WrongOffsetCount);
    }
    if offsets[0] != 0 {
        return Some(ShardFault::FirstNotZero);
    }
    if let Some(place) = first_descent(offsets) {
        return Some(ShardFault::Descending(place));
    }
    if offsets[last] != neighbours.len() as u64 {
        return Some(ShardFault::WrongLastOffset);
    }
    match first_outlier(vertices, neighbours) {
        Some(place) => Some(ShardFault::NotAVertex(place)),
        None => None,
    }
}

/// The entries of the row of a vertex.
fn row_of<'a>(offsets: &[u64], neighbours: &'a [u32], v: u32) -> &'a [u32]
    requires within { v + 1 < length offsets.now }
    requires ascending { slice_index offsets.now v ≤ slice_index offsets.now (v + 1) }
    requires ends { slice_index offsets.now (v + 1) ≤ length neighbours.now }
    ensures { result.now ≡ shard_row offsets.now neighbours.now v }
{
    let v = v as usize;
    &neighbours[offsets[v] as usize..offsets[v + 1] as usize]
}

/// Adds the edges of a row.
fn push_row(v: u32, entries: &[u32], edges: &mut Vec<Edge>) -> Result<(), NoMemory>
    ensures { OnOk result (edges.new.items ≡ edges.old.items ++ row_edges v entries.now) }
{
    for w in entries {
        edges.push(Edge { u: v, v: *w })?;
    }
    Ok(())
}

/// The edges of all rows.
fn edges_of_rows(
    alloc: Global,
    vertices: u32,
    offsets: &[u64],
    neighbours: &[u32],
) -> Result<Vec<Edge>, NoMemory>
    requires { AreRows vertices offsets.now neighbours.now }
    ensures { IfOk result (λ edges. edges.items ≡ rows_edges offsets.now neighbours.now vertices) }
{
    let mut edges = Vec::with_capacity(alloc, neighbours.len())?;
    for v in 0..vertices {
        push_row(v, row_of(offsets, neighbours, v), &mut edges)?;
    }
    Ok(edges)
}

/// The graph in which each vertex is joined with the entries of its row.
pub(crate) fn graph_of_rows(
    alloc: Global,
    vertices: u32,
    offsets: &[u64],
    neighbours: &[u32],
) -> Result<Graph, Refusal>
    ensures graph { IfOk result (λ g. g ≡ graph_of_rows vertices offsets.now neighbours.now) }
    ensures right { IfOk result (λ _. csr_fault vertices offsets.now neighbours.now ≡ None) }
    ensures refused { IfErr result (λ refusal. refusal ≡ rows_refusal (csr_fault vertices offsets.now neighbours.now)) }
{
    if let Some(fault) = csr_fault(vertices, offsets, neighbours) {
        return Err(Refusal::WrongRows(fault));
    }
    let Ok(edges) = edges_of_rows(alloc, vertices, offsets, neighbours) else {
        return Err(Refusal::NoMemory);
    };
    match Graph::from_edges(alloc, vertices, &edges) {
        Ok(graph) => Ok(graph),
        Err(_) => Err(Refusal::NoMemory),
    }
}
