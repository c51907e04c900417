//! A graph without its spare vertices: those behind the others, which have no edges.
ghost use Rattle.std.specs.Prelude.{◌≡◌, ◌≤◌, ◌++◌, IfOk, OnOk};
ghost use Rattle.kc_graph.specs.Growing.{with_vertices};
ghost use Rattle.kc_graph.specs.Neighbours.{edges_to_greater};
ghost use Rattle.kc_watch.specs.Room.{AreEdgesBelow, ListsEdgesBelow};

use crate::NoMemory;
use kc_graph::{Graph, SharedGraph};
use std::alloc::Global;

/// Puts the edges from a vertex to those of its neighbours that are greater behind others.
fn put_edges(vertex: u32, neighbours: &[u32], edges: &mut Vec<(u32, u32)>) -> Result<(), NoMemory>
    ensures { OnOk result (edges.new.items ≡ edges.old.items ++ edges_to_greater vertex neighbours.now) }
{
    for w in neighbours {
        if vertex < *w {
            edges.push((vertex, *w))?;
        }
    }
    Ok(())
}

/// The edges of a graph, each with its lesser end first, where these vertices have them all.
fn list_edges(
    alloc: Global,
    graph: &SharedGraph,
    vertices: u32,
) -> Result<Vec<(u32, u32)>, NoMemory>
    requires fits { vertices ≤ graph.now.size }
    requires edges { AreEdgesBelow vertices graph.now.edges }
    ensures { IfOk result (λ edges. ListsEdgesBelow graph.now vertices edges.items) }
{
    let mut edges = Vec::new(alloc);
    for vertex in 0..vertices {
        put_edges(vertex, graph.neighbours(vertex), &mut edges)?;
    }
    Ok(edges)
}

/// The graph with these vertices alone, of which the others are spare.
pub(crate) fn without_spare(
    alloc: Global,
    graph: &SharedGraph,
    vertices: u32,
) -> Result<Graph, NoMemory>
    requires fits { vertices ≤ graph.now.size }
    requires edges { AreEdgesBelow vertices graph.now.edges }
    ensures { IfOk result (λ first. first ≡ with_vertices vertices graph.now) }
{
    let edges = list_edges(alloc, graph, vertices)?;
    Graph::from_pairs(alloc, vertices, &edges)
}
