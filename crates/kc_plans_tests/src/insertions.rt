//! Plans of insertions, worked out by hand.
ghost use Rattle.std.specs.Prelude.{◌<◌, All};

use crate::planning::{assert_asked, plan_of_edge};
use crate::states::certified;
use kc_graph::{Moves, Plan};
use std::process::Abort;

/// A graph with its core numbers and an order that certifies them.
#[derive(Clone, Copy, Drop)]
struct State<'a> {
    vertices: u32,
    edges: &'a [(u32, u32)],
    core: &'a [u32],
    order: &'a [u32],
    ghost pairs: { All (λ p. (p.0 < p.1) × (p.1 < vertices)) edges.now },
}

/// The plan that adds the edge between `u` and `v`.
fn plan_of<R: Abort + AllocGlobal>(rt: &R, state: &State<'_>, u: u32, v: u32) -> Plan {
    let lawful = certified(rt, state.vertices, state.edges, state.core, state.order);
    plan_of_edge(rt, &lawful, true, u, v)
}

/// These vertices rise from this level in this order, and these are put behind others.
fn assert_rise<R: Abort>(rt: &R, plan: &Plan, of: u32, these: &[u32], behind: &[(u32, u32)]) {
    match &plan.moves {
        Moves::Rise {
            level,
            rise,
            shifts,
        } => {
            assert_eq!(rt; *level, of);
            assert_eq!(rt; rise.as_slice(), these);
            assert_eq!(rt; shifts.as_slice(), behind);
        }
        _ => panic!(rt; "no vertex rises or is put behind another"),
    }
}

/// The whole of a path rises where its ends are joined.
fn assert_ends_joined<R: Abort + AllocGlobal>(rt: &R, path: &State<'_>) {
    let closed = plan_of(rt, path, 0, 3);
    assert_rise(rt, &closed, 1, &[0, 1, 2, 3], &[]);
    assert_asked(rt, &closed, &[0, 1, 2, 3]);
}

/// An edge of a path that is there is kept, and one list tells it.
fn assert_there<R: Abort + AllocGlobal>(rt: &R, path: &State<'_>) {
    let there = plan_of(rt, path, 1, 2);
    assert!(rt; matches!(there.moves, Moves::Kept));
    assert_asked(rt, &there, &[1]);
    assert!(rt; there.used.places.is_empty() && there.used.orders.is_empty());
}

#[test]
fn the_ends_of_a_path_are_joined(rt: HostRuntime) {
    let path = State {
        vertices: 4,
        edges: &[(0, 1), (1, 2), (2, 3)],
        core: &[1, 1, 1, 1],
        order: &[0, 1, 2, 3],
    };
    assert_ends_joined(&rt, &path);
    assert_there(&rt, &path);
}

/// Two edges, whose vertices stand in this order.
fn two_edges(order: &[u32]) -> State<'_> {
    State {
        vertices: 4,
        edges: &[(0, 1), (2, 3)],
        core: &[1, 1, 1, 1],
        order,
    }
}

/// The first end of the new edge is evicted, since the vertex behind it does not rise.
fn assert_evicted<R: Abort + AllocGlobal>(rt: &R) {
    let plan = plan_of(rt, &two_edges(&[0, 1, 2, 3]), 0, 2);
    assert_rise(rt, &plan, 1, &[], &[(0, 1)]);
}

/// Where the later end of each edge comes first nobody moves.
fn assert_plain<R: Abort + AllocGlobal>(rt: &R) {
    let plan = plan_of(rt, &two_edges(&[0, 2, 1, 3]), 1, 3);
    assert!(rt; matches!(plan.moves, Moves::Plain));
    assert_asked(rt, &plan, &[1]);
}

#[test]
fn two_edges_are_joined(rt: HostRuntime) {
    assert_evicted(&rt);
    assert_plain(&rt);
}

#[test]
fn a_vertex_alone_is_joined_to_a_triangle(rt: HostRuntime) {
    let state = State {
        vertices: 4,
        edges: &[(0, 1), (1, 2), (0, 2)],
        core: &[2, 2, 2, 0],
        order: &[3, 0, 1, 2],
    };
    let plan = plan_of(&rt, &state, 0, 3);
    assert_rise(&rt, &plan, 0, &[3], &[]);
    assert_asked(&rt, &plan, &[0, 3]);
}

/// Two vertices are evicted, one behind the other, in the order in which they were found too weak.
#[test]
fn a_ring_of_four_gets_a_chord(rt: HostRuntime) {
    let ring = State {
        vertices: 4,
        edges: &[(0, 2), (0, 3), (1, 2), (1, 3)],
        core: &[2, 2, 2, 2],
        order: &[0, 1, 2, 3],
    };
    let plan = plan_of(&rt, &ring, 0, 1);
    assert_rise(&rt, &plan, 2, &[], &[(0, 2), (1, 0)]);
}

/// Four vertices rise. The one that stands between two of them is evicted, and put behind the one that settles it.
#[test]
fn some_rise_and_one_is_evicted(rt: HostRuntime) {
    let state = State {
        vertices: 6,
        edges: &[
            (0, 3),
            (0, 4),
            (0, 5),
            (1, 2),
            (1, 3),
            (1, 5),
            (2, 3),
            (3, 5),
            (4, 5),
        ],
        core: &[2, 2, 2, 2, 2, 2],
        order: &[2, 1, 3, 0, 4, 5],
    };
    let plan = plan_of(&rt, &state, 2, 5);
    assert_rise(&rt, &plan, 2, &[2, 1, 3, 5], &[(0, 4)]);
    assert_asked(&rt, &plan, &[2, 1, 3, 0, 4, 5]);
}
