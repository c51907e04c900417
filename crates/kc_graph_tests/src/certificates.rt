//! Certificates of small graphs, right ones and wrong ones.
ghost use Rattle.std.specs.Prelude.{◌<◌, All};

use kc_cert::{check, local_check};
use kc_graph::{Graph, Lawful, Moves, Plan, Update, Used, decompose_owned};
use std::process::Abort;

/// What is wrong with core numbers and an order of a graph, these, and whether they pass.
type Claim = (&'static str, &'static [u32], &'static [u32], bool);

/// Core numbers and an order pass the check of a graph, or do not.
fn assert_checked<R: Abort + AllocGlobal>(rt: &R, graph: &Graph, claim: &Claim) {
    let (what, core, order, wanted) = *claim;
    let passes = check(rt.alloc(), graph, core, order).expect(rt, "no memory");
    assert_eq!(rt; passes, wanted, "{what}");
}

/// Just one of these is a certificate of a triangle.
const TRIANGLE: [Claim; 8] = [
    ("its certificate", &[2, 2, 2], &[0, 1, 2], true),
    ("too many later neighbours", &[1, 1, 1], &[0, 1, 2], false),
    ("too high for the support", &[3, 3, 3], &[0, 1, 2], false),
    ("a number too few", &[2, 2], &[0, 1, 2], false),
    ("a number too many", &[2, 2, 2, 2], &[0, 1, 2], false),
    ("a vertex too few", &[2, 2, 2], &[0, 1], false),
    ("a vertex twice", &[2, 2, 2], &[0, 1, 1], false),
    ("no vertex of the graph", &[2, 2, 2], &[0, 1, 3], false),
];

#[test]
fn a_triangle(rt: HostRuntime) {
    let graph = Graph::from_pairs(rt.alloc(), 3, &[(0, 1), (0, 2), (1, 2)]);
    let graph = graph.expect(&rt, "no memory");
    for claim in &TRIANGLE {
        assert_checked(&rt, &graph, claim);
    }
}

/// The tail has to stand before the triangle.
const TAILED: [Claim; 2] = [
    ("its certificate", &[2, 2, 2, 1], &[3, 0, 1, 2], true),
    ("the numbers fall", &[2, 2, 2, 1], &[0, 1, 2, 3], false),
];

#[test]
fn a_triangle_with_a_tail(rt: HostRuntime) {
    let graph = Graph::from_pairs(rt.alloc(), 4, &[(0, 1), (0, 2), (1, 2), (2, 3)]);
    let graph = graph.expect(&rt, "no memory");
    for claim in &TAILED {
        assert_checked(&rt, &graph, claim);
    }
}

/// A graph of four vertices of core number 1.
fn of_level_1<R: Abort + AllocGlobal>(rt: &R, edges: &[(u32, u32)]) -> Lawful
    requires { All (λ p. (p.0 < p.1) × (p.1 < 4)) edges.now }
{
    let graph = Graph::from_pairs(rt.alloc(), 4, edges).expect(rt, "no memory");
    let state = decompose_owned(rt.alloc(), graph).expect(rt, "no memory");
    assert_eq!(rt; state.core(), [1, 1, 1, 1].as_slice());
    state
}

/// Whether a plan of this update, which read nothing, passes.
fn passes<R: Abort + AllocGlobal>(
    rt: &R,
    state: &Lawful,
    update: (bool, u32, u32),
    moves: Moves,
) -> bool {
    let (add, u, v) = update;
    assert!(rt; u < v);
    let used = Used {
        edges: Vec::new(rt.alloc()),
        places: Vec::new(rt.alloc()),
        orders: Vec::new(rt.alloc()),
    };
    let update = Update { add, u, v };
    let plan = Plan {
        update,
        used,
        moves,
    };
    local_check(rt.alloc(), state, &plan).expect(rt, "no memory")
}

/// The moves of a rise.
fn rise<R: Abort + AllocGlobal>(rt: &R, level: u32, rise: &[u32], shifts: &[(u32, u32)]) -> Moves {
    Moves::Rise {
        level,
        rise: Vec::from_slice(rt.alloc(), rise).expect(rt, "no memory"),
        shifts: Vec::from_slice(rt.alloc(), shifts).expect(rt, "no memory"),
    }
}

/// The moves of a fall.
fn fall<R: Abort + AllocGlobal>(rt: &R, level: u32, fall: &[u32]) -> Moves {
    Moves::Fall {
        level,
        fall: Vec::from_slice(rt.alloc(), fall).expect(rt, "no memory"),
    }
}

/// Whether a plan of this update with these moves passes, as it should.
fn assert_passes<R: Abort + AllocGlobal>(
    rt: &R,
    state: &Lawful,
    update: (bool, u32, u32),
    moves: Moves,
    wanted: bool,
    what: &str,
) {
    let passes = passes(rt, state, update, moves);
    assert_eq!(rt; passes, wanted, "{what}");
}

/// How these vertices rise, from which level, and whether they may.
type Rise = (&'static str, u32, &'static [u32], bool);

/// These vertices rise from this level where an edge between 0 and 2 comes, or do not.
fn assert_rise<R: Abort + AllocGlobal>(rt: &R, state: &Lawful, risers: &Rise) {
    let (what, level, risers, wanted) = *risers;
    let moves = rise(rt, level, risers, &[]);
    assert_passes(rt, state, (true, 0, 2), moves, wanted, what);
}

/// Just two of these rises of a path pass where an edge between 0 and 2 makes it a triangle.
const PATH_RISES: [Rise; 6] = [
    ("its vertices rise", 1, &[0, 1, 2], true),
    ("in any order", 1, &[2, 0, 1], true),
    ("none rises", 1, &[], false),
    ("two rise alone", 1, &[0, 2], false),
    ("one rises twice", 1, &[0, 1, 2, 0], false),
    ("they have another level", u32::MAX, &[0, 1, 2], false),
];

/// Nothing is kept where a path gets an edge, and none comes at a vertex that is not there.
fn assert_no_rise<R: Abort + AllocGlobal>(rt: &R, state: &Lawful) {
    let (kept, plain) = (Moves::Kept, Moves::Plain);
    assert_passes(rt, state, (true, 0, 2), kept, false, "it is not there");
    assert_passes(
        rt,
        state,
        (true, 0, 4),
        plain,
        false,
        "no vertex of the graph",
    );
}

#[test]
fn an_edge_that_makes_a_path_a_triangle(rt: HostRuntime) {
    let state = of_level_1(&rt, &[(0, 1), (1, 2), (2, 3)]);
    for risers in &PATH_RISES {
        assert_rise(&rt, &state, risers);
    }
    assert_no_rise(&rt, &state);
}

/// How vertices are put behind others, which, and whether they may be.
type Shift = (&'static str, &'static [(u32, u32)], bool);

/// Vertices of level 1 are put behind others where an edge between 0 and 2 comes, or are not.
fn assert_shift<R: Abort + AllocGlobal>(rt: &R, state: &Lawful, shift: &Shift) {
    let (what, shifts, wanted) = *shift;
    let moves = rise(rt, 1, &[], shifts);
    assert_passes(rt, state, (true, 0, 2), moves, wanted, what);
}

/// Just three of these shifts pass where an edge between 0 and 2 joins two edges.
const SHIFTS: [Shift; 9] = [
    ("the first vertex has two later neighbours", &[], false),
    ("or one", &[(0, 1)], true),
    ("a chain", &[(0, 1), (2, 0)], true),
    ("the last one put stands first", &[(0, 1), (2, 1)], false),
    (
        "behind one that moved before",
        &[(2, 1), (3, 2), (0, 1)],
        true,
    ),
    (
        "behind one that moves later",
        &[(3, 2), (2, 1), (0, 1)],
        false,
    ),
    ("behind itself", &[(0, 0)], false),
    ("twice", &[(0, 1), (0, 1)], false),
    ("behind no vertex", &[(0, 4)], false),
];

#[test]
fn an_edge_between_two_edges(rt: HostRuntime) {
    let state = of_level_1(&rt, &[(0, 1), (2, 3)]);
    assert_eq!(rt; state.order(), [0, 1, 2, 3].as_slice());
    for shift in &SHIFTS {
        assert_shift(&rt, &state, shift);
    }
}

/// How vertices fall, the edge that goes, the level and the vertices, and whether they may.
type Fall = (&'static str, (u32, u32), u32, &'static [u32], bool);

/// These vertices fall from this level where this edge goes, or do not.
fn assert_fall<R: Abort + AllocGlobal>(rt: &R, state: &Lawful, fallers: &Fall) {
    let (what, (u, v), level, fallers, wanted) = *fallers;
    let moves = fall(rt, level, fallers);
    assert_passes(rt, state, (false, u, v), moves, wanted, what);
}

/// Just three of these falls pass where an edge of a path goes.
const PATH_FALLS: [Fall; 6] = [
    ("the end falls", (0, 1), 1, &[0], true),
    ("its neighbour falls too", (0, 1), 1, &[0, 1], false),
    ("it falls below level 0", (0, 1), 0, &[0], false),
    ("it stays without support", (0, 1), 1, &[], false),
    ("in the middle none falls", (1, 2), 1, &[], true),
    (
        "nor from a level that none has",
        (1, 2),
        u32::MAX,
        &[],
        true,
    ),
];

/// An edge that goes from a path is kept where it is not there.
fn assert_no_fall<R: Abort + AllocGlobal>(rt: &R, state: &Lawful) {
    let (absent, there) = (Moves::Kept, Moves::Kept);
    assert_passes(rt, state, (false, 0, 2), absent, true, "it is not there");
    assert_passes(rt, state, (false, 1, 2), there, false, "it is there");
}

#[test]
fn an_edge_that_goes_from_a_path(rt: HostRuntime) {
    let state = of_level_1(&rt, &[(0, 1), (1, 2), (2, 3)]);
    for fallers in &PATH_FALLS {
        assert_fall(&rt, &state, fallers);
    }
    assert_no_fall(&rt, &state);
}
