//! Small graphs with answers worked out by hand, a path with many rounds, and random graphs beside the decomposition by buckets.
use crate::graphs::graph_of;
use kc_graph::{Graph, core_numbers};
use kc_hindex::{Peeled, lawful, peel};
use rand::RngExt;
use rand_core::SeedableRng;
use rand_xoshiro::Xoshiro256PlusPlus;
use std::process::Abort;
use std::thread::Threads;

/// How many vertices a graph has, its edges, its core numbers, and how many rounds find them.
type Found = (u32, &'static [(u32, u32)], &'static [u32], u64);

/// The numbers of this graph are these, and so many rounds find them.
fn assert_rounds<R: Abort + AllocGlobal + Threads + Sync>(rt: &R, found: &Found) {
    let (vertices, edges, core, rounds) = *found;
    let graph = graph_of(rt, vertices, edges);
    let peeled = peel(rt, rt.alloc(), &graph).expect(rt, "no memory");
    assert_eq!(rt; (peeled.core.as_slice(), peeled.rounds), (core, rounds));
}

const FOUND: [Found; 5] = [
    (3, &[(0, 1), (1, 2), (0, 2)], &[2, 2, 2], 1),
    (4, &[(0, 1), (1, 2), (2, 3)], &[1, 1, 1, 1], 2),
    (0, &[], &[], 1),
    (2, &[], &[0, 0], 1),
    // a star, whose middle falls to 1 in the first round
    (5, &[(0, 2), (1, 2), (2, 3), (2, 4)], &[1, 1, 1, 1, 1], 2),
];

#[test]
fn rounds_end_with_the_first_that_changes_nothing(rt: HostRuntime) {
    for found in &FOUND {
        assert_rounds(&rt, found);
    }
}

/// A path of so many vertices: its ends pull the middle down by one vertex a round.
fn path<R: Abort + AllocGlobal>(rt: &R, vertices: u32) -> Graph {
    let mut graph = Graph::new(rt.alloc(), vertices).expect(rt, "no memory");
    for v in 1..vertices {
        assert!(rt; v < graph.vertices());
        graph.add(v - 1, v).expect(rt, "no memory");
    }
    graph
}

#[test]
fn a_path_takes_a_round_for_each_two_vertices(rt: HostRuntime) {
    let graph = path(&rt, 1_000);
    let Peeled { core, rounds } = peel(&rt, rt.alloc(), &graph).expect(&rt, "no memory");
    assert!(rt; rounds == 500 && core.iter().all(|number| *number == 1));
}

/// A random graph: each of so many draws joins two vertices, if they differ.
fn random_graph<R: Abort + AllocGlobal>(rt: &R, seed: u64, edges: u32) -> Graph {
    let mut draws = Xoshiro256PlusPlus::seed_from_u64(seed);
    let mut graph = Graph::new(rt.alloc(), 40).expect(rt, "no memory");
    for _ in 0..edges {
        let u = draws.random_range(0u32..40);
        let v = draws.random_range(0u32..40);
        if u != v && u < graph.vertices() && v < graph.vertices() {
            graph.add(u, v).expect(rt, "no memory");
        }
    }
    graph
}

/// Rounds give the numbers that buckets give, and an order is found for these.
fn assert_agreed<R: Abort + AllocGlobal + Threads + Sync>(rt: &R, graph: Graph) {
    let core = core_numbers(rt.alloc(), &graph).expect(rt, "no memory");
    let peeled = peel(rt, rt.alloc(), &graph).expect(rt, "no memory");
    assert_eq!(rt; peeled.core.as_slice(), core.as_slice());
    let edges = graph.edges();
    let ranked = lawful(rt.alloc(), graph, peeled.core).expect(rt, "no memory");
    let found = (ranked.core(), ranked.order().len(), ranked.graph().edges());
    assert_eq!(rt; found, (core.as_slice(), core.len(), edges));
}

/// How many edges are drawn.
const DRAWN: [u32; 6] = [0, 10, 40, 80, 200, 500];

#[test]
fn rounds_give_what_buckets_give(rt: HostRuntime) {
    for seed in 0..20 {
        for edges in DRAWN {
            assert_agreed(&rt, random_graph(&rt, seed, edges));
        }
    }
}
