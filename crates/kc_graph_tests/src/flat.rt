//! Flat graphs of five vertices, with answers worked out by hand.
ghost use Rattle.kc_flat.specs.Pairs.{AreWithin};

use kc_flat::{Decomposition, FlatGraph, core_numbers, decompose};
use std::process::Abort;

/// The graph has these core numbers, and the vertex `first` was taken first.
fn assert_numbers<R: Abort + AllocGlobal>(rt: &R, graph: &FlatGraph, core: &[u32], first: u32) {
    let numbers = core_numbers(rt.alloc(), graph).expect(rt, "no memory");
    let Decomposition { core: same, order } = decompose(rt.alloc(), graph).expect(rt, "no memory");
    assert_eq!(rt; (numbers.as_slice(), same.as_slice()), (core, core));
    assert_eq!(rt; (order.len(), order.first().copied()), (5, Some(first)));
}

/// The graph of these pairs has so many edges, these neighbours of the vertex 1, and these core numbers.
fn check<R: Abort + AllocGlobal>(
    rt: &R,
    pairs: &[(u32, u32)],
    edges: u64,
    of_one: &[u32],
    core: &[u32],
    first: u32,
)
    requires { AreWithin 5 pairs.now }
{
    let graph = FlatGraph::from_pairs(rt.alloc(), 5, pairs).expect(rt, "no memory");
    assert!(rt; 1 < graph.vertices());
    assert_eq!(rt; (graph.edges(), graph.neighbours(1)), (edges, of_one));
    assert_numbers(rt, &graph, core, first);
}

#[test]
fn graphs_of_five_vertices(rt: HostRuntime) {
    check(&rt, &[], 0, &[], &[0, 0, 0, 0, 0], 0);
    let loops = [(1, 1), (3, 3)];
    check(&rt, &loops, 0, &[], &[0, 0, 0, 0, 0], 0);
    let triangle = [(2, 1), (1, 0), (0, 2), (1, 2), (3, 3), (2, 3), (1, 0)];
    check(&rt, &triangle, 4, &[0, 2], &[2, 2, 2, 1, 0], 4);
    let four = [(3, 2), (4, 1), (1, 3), (0, 1), (2, 0), (1, 2), (0, 3)];
    check(&rt, &four, 7, &[0, 2, 3, 4], &[3, 3, 3, 3, 1], 4);
}
