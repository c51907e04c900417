//! Short batches by a keeper alone and by workers.
use crate::twins::Twins;
use kc_graph::Update;
use std::process::Abort;
use std::sync::Wait;
use std::thread::Threads;

/// How many vertices the batches are of: so a batch of all their pairs is entered in turn, and not computed anew.
const VERTICES: u32 = 10;

/// Whether an edge is to come: some two of three are.
fn is_to_come(lesser: u32, vertex: u32, seed: u32) -> bool {
    lesser.wrapping_mul(vertex).wrapping_add(seed) % 5 > 1
}

/// Puts an update of each edge between a vertex and the lesser ones. Some are to come, and others are to go.
fn draw_row<R: Abort>(rt: &R, batch: &mut Vec<Update>, vertex: u32, seed: u32) {
    for lesser in 0..vertex {
        let update = Update {
            add: is_to_come(lesser, vertex, seed),
            u: lesser,
            v: vertex,
        };
        batch.push(update).expect(rt, "no memory");
    }
}

/// A batch that names each edge once.
fn drawn<R: Abort + AllocGlobal>(rt: &R, seed: u32) -> Vec<Update> {
    let mut batch = Vec::new(rt.alloc());
    for vertex in 0..VERTICES {
        draw_row(rt, &mut batch, vertex, seed);
    }
    batch
}

/// Both make a few batches, one of them by so many workers, and are right in the end.
fn make_drawn<R: Threads + Wait + Sync + Abort + AllocGlobal>(
    rt: &R,
    twins: &mut Twins,
    workers: u32,
) {
    for seed in 0..4 {
        let batch = drawn(rt, seed);
        assert!(rt; twins.make(rt, workers, &batch));
    }
    assert!(rt; twins.are_right(rt) && twins.worked.graph().edges() > 0);
}

/// With 0 workers the keeper makes the batch, and more than 64 are taken for 64.
#[test]
fn any_number_of_workers_makes_what_the_keeper_makes_alone(rt: HostRuntime) {
    for workers in [0, 1, 2, 4, 100] {
        let mut twins = Twins::open(&rt, VERTICES);
        make_drawn(&rt, &mut twins, workers);
    }
}

/// An edge comes and goes, and another one goes before it comes. Workers that took removals first would leave both.
const TWICE: [Update; 4] = [
    Update {
        add: true,
        u: 0,
        v: 1,
    },
    Update {
        add: false,
        u: 0,
        v: 1,
    },
    Update {
        add: false,
        u: 1,
        v: 2,
    },
    Update {
        add: true,
        u: 1,
        v: 2,
    },
];

#[test]
fn an_edge_that_is_named_twice_is_changed_in_turn(rt: HostRuntime) {
    let mut twins = Twins::open(&rt, 3);
    assert!(rt; twins.make(&rt, 2, &TWICE));
    assert_eq!(rt; twins.worked.core_numbers(), [0, 1, 1].as_slice());
}
