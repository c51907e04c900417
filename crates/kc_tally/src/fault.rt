//! What is wrong with a list of edges that is to have each edge once.
ghost use Rattle.std.specs.Prelude.{◌≡◌, ◌↔◌, ℕ, List, IsTrue, None, Some};
ghost use Rattle.kc_graph.specs.declared.bulk.Edge.{Edge};
ghost use Rattle.kc_tally.specs.Lists.{is_above, fault_after, first_fault};

use kc_graph::Edge;

/// What is wrong with an edge, as the first that applies.
#[derive(Clone, Copy, Debug, PartialEq, Eq)]
pub enum EdgeFault {
    /// An end is no vertex.
    NotAVertex,
    /// Both ends are the same.
    Loop,
    /// The greater end stands first.
    GreaterFirst,
    /// It is not above the edge right before it.
    NotAbove,
}

/// Why a list of edges is refused: the place of the first edge that is wrong, and what is wrong with it.
#[derive(Clone, Copy, Debug, PartialEq, Eq)]
pub struct FirstFault {
    pub place: usize,
    pub fault: EdgeFault,
}

/// The least that an edge can be listed after: each edge with its lesser end first is above it.
const ORIGIN: Edge = Edge { u: 0, v: 0 };

/// Whether an edge is above another one.
fn is_above(last: Edge, edge: Edge) -> bool
    ensures { result ≡ is_above (Some last) edge }
{
    (last.u < edge.u) | ((last.u == edge.u) & (last.v < edge.v))
}

/// Whether nothing is wrong with an edge that is listed right after `last`. The tests are joined without branches: nearly each edge passes
/// all of them.
fn goes_on(vertices: usize, last: Edge, edge: Edge) -> bool
    ensures { IsTrue result ↔ fault_after vertices (Some last) edge ≡ None }
{
    ((edge.v as usize) < vertices) & (edge.u < edge.v) & is_above(last, edge)
}

/// What is wrong with an edge that is listed right after `last`.
fn fault_after(vertices: usize, last: Edge, edge: Edge) -> Option<EdgeFault>
    ensures { result ≡ fault_after vertices (Some last) edge }
{
    if goes_on(vertices, last, edge) {
        None
    } else if edge.u as usize >= vertices || edge.v as usize >= vertices {
        Some(EdgeFault::NotAVertex)
    } else if edge.u == edge.v {
        Some(EdgeFault::Loop)
    } else if edge.u > edge.v {
        Some(EdgeFault::GreaterFirst)
    } else {
        Some(EdgeFault::NotAbove)
    }
}

/// The edge after which a list goes on, or else the least that there is.
fn first_last(before: Option<Edge>) -> Edge
    ensures { (vertices : ℕ) (edges : List Edge) → first_fault vertices 0 (Some result) edges ≡ first_fault vertices 0 before edges }
{
    match before {
        Some(last) => last,
        None => ORIGIN,
    }
}

/// The first fault of a list of edges that is to be strictly ascending, each with its lesser end first. `before` is the edge after which
/// the list goes on, such as the last one of the piece before it.
pub fn first_fault(vertices: usize, before: Option<Edge>, edges: &[Edge]) -> Option<FirstFault>
    ensures { result ≡ first_fault vertices 0 before edges.now }
{
    let mut last = first_last(before);
    for (place, edge) in edges.iter().enumerate() {
        if let Some(fault) = fault_after(vertices, last, *edge) {
            return Some(FirstFault { place, fault });
        }
        last = *edge;
    }
    None
}
