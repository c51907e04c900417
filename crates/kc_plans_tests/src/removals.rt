//! Plans of removals, worked out by hand.
ghost use Rattle.std.specs.Prelude.{◌<◌, All};

use crate::planning::{assert_asked, plan_of_edge};
use crate::states::decomposed;
use kc_graph::{Moves, Plan};
use std::process::Abort;

/// The plan that takes the edge between `u` and `v` out of the graph with these edges.
fn plan_of<R: Abort + AllocGlobal>(
    rt: &R,
    vertices: u32,
    edges: &[(u32, u32)],
    u: u32,
    v: u32,
) -> Plan
    requires { All (λ p. (p.0 < p.1) × (p.1 < vertices)) edges.now }
{
    let lawful = decomposed(rt, vertices, edges);
    plan_of_edge(rt, &lawful, false, u, v)
}

/// These vertices fall from this level, in this order.
fn assert_fall<R: Abort>(rt: &R, plan: &Plan, of: u32, these: &[u32]) {
    match &plan.moves {
        Moves::Fall { level, fall } => {
            assert_eq!(rt; *level, of);
            assert_eq!(rt; fall.as_slice(), these);
        }
        _ => panic!(rt; "no vertex falls"),
    }
}

/// The lists of these vertices were asked, in this order, and no order was.
fn assert_only_asked<R: Abort>(rt: &R, plan: &Plan, lists: &[u32]) {
    assert_asked(rt, plan, lists);
    assert!(rt; plan.used.orders.is_empty());
}

/// A path of four vertices.
const PATH: [(u32, u32); 3] = [(0, 1), (1, 2), (2, 3)];

/// Nobody falls where the edge in the middle of a path goes.
fn assert_middle<R: Abort + AllocGlobal>(rt: &R) {
    let middle = plan_of(rt, 4, &PATH, 1, 2);
    assert!(rt; matches!(middle.moves, Moves::Plain));
}

/// The end of a path falls where its edge goes.
fn assert_end<R: Abort + AllocGlobal>(rt: &R) {
    let end = plan_of(rt, 4, &PATH, 0, 1);
    assert_fall(rt, &end, 1, &[0]);
    assert_only_asked(rt, &end, &[0, 1]);
}

/// An edge that is not there is kept so, and one list tells it.
fn assert_absent<R: Abort + AllocGlobal>(rt: &R) {
    let absent = plan_of(rt, 4, &PATH, 0, 2);
    assert!(rt; matches!(absent.moves, Moves::Kept));
    assert_only_asked(rt, &absent, &[0]);
    assert!(rt; absent.used.places.is_empty());
}

#[test]
fn edges_of_a_path(rt: HostRuntime) {
    assert_middle(&rt);
    assert_end(&rt);
    assert_absent(&rt);
}

#[test]
fn four_vertices_all_joined(rt: HostRuntime) {
    let edges = [(0, 1), (0, 2), (0, 3), (1, 2), (1, 3), (2, 3)];
    let plan = plan_of(&rt, 4, &edges, 0, 1);
    assert_fall(&rt, &plan, 3, &[0, 1, 2, 3]);
}

/// The rim of a wheel, and its spokes to vertex 6.
const WHEEL: [(u32, u32); 12] = [
    (0, 1),
    (1, 2),
    (2, 3),
    (3, 4),
    (4, 5),
    (0, 5),
    (0, 6),
    (1, 6),
    (2, 6),
    (3, 6),
    (4, 6),
    (5, 6),
];

/// The hub of a wheel is visited when three of its rim have fallen, and only vertex 0 is gone. It finds support in 1, 2 and 3, and in 4 when
/// 1 is gone. When 2 is gone it finds no more, since 5 has had its turn.
#[test]
fn a_rim_edge_of_a_wheel(rt: HostRuntime) {
    let plan = plan_of(&rt, 7, &WHEEL, 0, 1);
    assert_fall(&rt, &plan, 3, &[0, 1, 5, 2, 4, 3, 6]);
    assert_only_asked(&rt, &plan, &[0, 1, 5, 6, 2, 4, 3]);
}

/// The vertex that two triangles share keeps two neighbours.
#[test]
fn an_edge_of_one_of_two_triangles(rt: HostRuntime) {
    let edges = [(0, 1), (0, 2), (1, 2), (2, 3), (2, 4), (3, 4)];
    let plan = plan_of(&rt, 5, &edges, 0, 1);
    assert_fall(&rt, &plan, 2, &[0, 1]);
    assert_only_asked(&rt, &plan, &[0, 1, 2]);
}
