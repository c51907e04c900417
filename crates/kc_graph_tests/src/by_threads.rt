//! Graphs that several threads make, beside those that one thread makes.
ghost use Rattle.std.specs.Prelude.{◌<◌, IfOk};
ghost use Rattle.kc_flat.specs.Pairs.{AreWithin};

use kc_flat::{FlatGraph, GraphMaker, OneThread, from_pairs_in};
use kc_graph::NoMemory;
use std::alloc::Global;
use std::process::Abort;
use std::thread::Threads;

/// More pairs than are left to one thread. The place `i` of a pair tells its ends: the rest of `i`, and that of a seventh of it, `step` times.
fn made_pairs(alloc: Global, vertices: u32, step: u32) -> Result<Vec<(u32, u32)>, NoMemory>
    requires { 0 < vertices }
    ensures { IfOk result (λ pairs. AreWithin vertices pairs.items) }
{
    let mut pairs = Vec::new(alloc);
    for i in 0..70_000u32 {
        pairs.push((i % vertices, (i / 7).wrapping_mul(step) % vertices))?;
    }
    Ok(pairs)
}

/// The edges of both graphs are the same.
fn assert_same<R: Abort + AllocGlobal>(rt: &R, graph: &FlatGraph, other: &FlatGraph) {
    let edges = graph.edge_list(rt.alloc()).expect(rt, "no memory");
    let others = other.edge_list(rt.alloc()).expect(rt, "no memory");
    assert_eq!(rt; edges.as_slice(), others.as_slice());
}

/// Up to four threads make the graph of these pairs that one makes, with so many edges.
fn check<R: Threads + Sync + Abort + AllocGlobal>(rt: &R, vertices: u32, step: u32, edges: u64)
    requires { 0 < vertices }
{
    let alloc = rt.alloc();
    let pairs = made_pairs(alloc, vertices, step).expect(rt, "no memory");
    let graph = OneThread
        .make_graph(alloc, 4, vertices, &pairs)
        .expect(rt, "no memory");
    assert_eq!(rt; graph.edges(), edges);
    for threads in 0..5 {
        let made = from_pairs_in(rt, threads, alloc, vertices, &pairs).expect(rt, "no memory");
        assert_same(rt, &graph, &made);
    }
}

#[test]
fn threads_make_the_graph_of_one(rt: HostRuntime) {
    check(&rt, 1000, 0, 999);
    check(&rt, 999, 131, 6964);
}
