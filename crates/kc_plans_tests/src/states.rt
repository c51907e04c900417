//! Graphs to begin with, by their edges, with their core numbers and an order.
ghost use Rattle.std.specs.Prelude.{◌<◌, All};
ghost use Rattle.kc_graph.specs.Certificate.{Certifies};

use kc_cert::check;
use kc_graph::{Graph, Lawful, decompose_owned};
use std::process::Abort;

/// The graph with these edges, its core numbers and an order.
pub(crate) fn decomposed<R: Abort + AllocGlobal>(
    rt: &R,
    vertices: u32,
    edges: &[(u32, u32)],
) -> Lawful
    requires { All (λ p. (p.0 < p.1) × (p.1 < vertices)) edges.now }
{
    let graph = Graph::from_pairs(rt.alloc(), vertices, edges).expect(rt, "no memory");
    decompose_owned(rt.alloc(), graph).expect(rt, "no memory")
}

/// The order certifies these core numbers of the graph.
fn assert_certified<R: Abort + AllocGlobal>(rt: &R, graph: &Graph, core: &[u32], order: &[u32])
    ensures { Certifies graph.now core.now order.now }
{
    let is_certified = check(rt.alloc(), graph, core, order).expect(rt, "no memory");
    assert!(rt; is_certified);
}

/// The graph with these core numbers, which the order certifies.
fn lawful_of<R: Abort + AllocGlobal>(rt: &R, graph: Graph, core: &[u32], order: &[u32]) -> Lawful {
    assert_certified(rt, &graph, core, order);
    let core = Vec::from_slice(rt.alloc(), core).expect(rt, "no memory");
    let order = Vec::from_slice(rt.alloc(), order).expect(rt, "no memory");
    Lawful::new(rt.alloc(), graph, core, order).expect(rt, "no memory")
}

/// The graph with these edges and core numbers, which the order certifies.
pub(crate) fn certified<R: Abort + AllocGlobal>(
    rt: &R,
    vertices: u32,
    edges: &[(u32, u32)],
    core: &[u32],
    order: &[u32],
) -> Lawful
    requires { All (λ p. (p.0 < p.1) × (p.1 < vertices)) edges.now }
{
    let graph = Graph::from_pairs(rt.alloc(), vertices, edges).expect(rt, "no memory");
    lawful_of(rt, graph, core, order)
}
