//! Batches that add many edges, beside the same edges one after the other.
use crate::twins::open;
use kc_graph::Update;
use kc_keeper::{Changes, Keeper};
use std::process::Abort;

/// How many vertices the batches are of: so one of a third of their pairs is computed anew, and not entered in turn.
const VERTICES: u32 = 20;

/// Whether an edge is to come: the others are every third one.
fn is_to_come(lesser: u32, vertex: u32, seed: u32) -> bool {
    lesser.wrapping_mul(vertex).wrapping_add(seed) % 3 > 0
}

/// Puts an update of each edge that is to come between a vertex and the lesser ones.
fn draw_row<R: Abort>(rt: &R, batch: &mut Vec<Update>, vertex: u32, seed: u32) {
    for lesser in 0..vertex {
        if is_to_come(lesser, vertex, seed) {
            let update = Update {
                add: true,
                u: lesser,
                v: vertex,
            };
            batch.push(update).expect(rt, "no memory");
        }
    }
}

/// Puts an update of each edge that is to come.
fn draw<R: Abort>(rt: &R, batch: &mut Vec<Update>, seed: u32) {
    for vertex in 0..VERTICES {
        draw_row(rt, batch, vertex, seed);
    }
}

/// Makes the updates one after the other, and lists those that changed the graph.
fn make_singly<R: Abort + AllocGlobal>(
    rt: &R,
    keeper: &mut Keeper,
    batch: &[Update],
) -> Vec<Update> {
    let mut applied = Vec::new(rt.alloc());
    for update in batch {
        if keeper.update(rt.alloc(), *update).expect(rt, "refused") {
            applied.push(*update).expect(rt, "no memory");
        }
    }
    applied
}

/// A keeper that makes whole batches, and one that makes their updates one after the other.
#[derive(Drop)]
struct Pair {
    whole: Keeper,
    single: Keeper,
}

impl Pair {
    /// Both with no edges.
    fn open<R: Abort + AllocGlobal>(rt: &R) -> Pair {
        Pair {
            whole: open(rt, VERTICES),
            single: open(rt, VERTICES),
        }
    }

    /// Whether both make a batch that only adds, are left alike, and the first one tells of just the updates that changed the other one.
    fn make<R: Abort + AllocGlobal>(&mut self, rt: &R, batch: &[Update]) -> bool {
        let mut changes = Changes::new(rt.alloc());
        let made = self.whole.apply(rt.alloc(), batch, &mut changes);
        let applied = make_singly(rt, &mut self.single, batch);
        made.is_ok()
            && changes.applied.as_slice() == applied.as_slice()
            && changes.added == applied.len()
            && changes.removed == 0
            && self.are_alike()
    }

    /// Whether both have as many edges and the same core numbers.
    fn are_alike(&self) -> bool {
        self.whole.graph().edges() == self.single.graph().edges()
            && self.whole.core_numbers() == self.single.core_numbers()
    }
}

/// From the second batch on, some of the edges are there.
#[test]
fn edges_in_bulk_are_as_edges_one_by_one(rt: HostRuntime) {
    let mut pair = Pair::open(&rt);
    for seed in 0..3 {
        let mut batch = Vec::new(rt.alloc());
        draw(&rt, &mut batch, seed);
        assert!(rt; pair.make(&rt, &batch));
    }
    assert_eq!(rt; pair.whole.graph().edges(), 190);
}

/// Each batch names each new edge twice.
#[test]
fn an_edge_that_is_named_twice_is_added_once(rt: HostRuntime) {
    let mut pair = Pair::open(&rt);
    for seed in 0..2 {
        let mut batch = Vec::new(rt.alloc());
        draw(&rt, &mut batch, seed);
        draw(&rt, &mut batch, seed * 2);
        assert!(rt; pair.make(&rt, &batch));
    }
}
