//! Batches that pay for workers. They cut rings, and close others.
use crate::twins::Twins;
use kc_graph::Update;
use kc_keeper::Changes;
use kc_keeper_workers::{apply_with, pays};
use std::process::Abort;
use std::sync::Wait;
use std::thread::Threads;

/// The vertices stand in so many rows. Each is a path, or a ring where its ends are joined.
const CHAINS: u32 = 10_000;

/// How many vertices a row has.
const LENGTH: u32 = 21;

/// How many there are in all.
const VERTICES: u32 = 210_000;

/// How many workers make the batches.
const WORKERS_ASKED: u32 = 4;

/// Puts the edges between neighbours in the row that begins with this vertex.
fn push_chain<R: Abort>(rt: &R, batch: &mut Vec<Update>, first: u32) {
    for vertex in first..first.saturating_add(LENGTH - 1) {
        let update = Update {
            add: true,
            u: vertex,
            v: vertex + 1,
        };
        batch.push(update).expect(rt, "no memory");
    }
}

/// The edges between neighbours in all rows.
fn chains<R: Abort + AllocGlobal>(rt: &R) -> Vec<Update> {
    let mut batch = Vec::new(rt.alloc());
    for chain in 0..CHAINS {
        push_chain(rt, &mut batch, chain * LENGTH);
    }
    batch
}

/// The edges between the ends of the rows. Those of every second row, from this one on, are to come, and the others are to go.
fn closings<R: Abort + AllocGlobal>(rt: &R, first: u32) -> Vec<Update> {
    let mut batch = Vec::new(rt.alloc());
    for chain in 0..CHAINS {
        let update = Update {
            add: chain % 2 == first,
            u: chain * LENGTH,
            v: chain * LENGTH + (LENGTH - 1),
        };
        batch.push(update).expect(rt, "no memory");
    }
    batch
}

/// Whether it pays to have workers make such a batch, and both make it and are left alike.
fn close<R: Threads + Wait + Sync + Abort + AllocGlobal>(
    rt: &R,
    twins: &mut Twins,
    first: u32,
) -> bool {
    let alloc = rt.alloc();
    let batch = closings(rt, first);
    let size = twins
        .worked
        .graph()
        .edges()
        .saturating_add(u64::from(VERTICES));
    let is_worth = pays(WORKERS_ASKED, size, batch.len());
    let alone = twins.alone.apply(alloc, &batch, &mut twins.by_itself);
    let changes = &mut twins.by_workers;
    let worked = apply_with(rt, alloc, &mut twins.worked, WORKERS_ASKED, &batch, changes);
    is_worth && alone.is_ok() && worked.is_ok() && twins.stay_alike()
}

/// Whether the last batch cut 5,000 rings, closed as many, and changed each number.
fn has_changed_all(twins: &Twins) -> bool {
    let Changes {
        added,
        removed,
        cores,
        ..
    } = &twins.by_workers;
    *added == 5_000 && *removed == 5_000 && cores.len() == VERTICES as usize
}

/// Lays the rows, closes every second one, and then the others instead.
fn make_long<R: Threads + Wait + Sync + Abort + AllocGlobal>(rt: &R, twins: &mut Twins) {
    let chains = chains(rt);
    assert!(rt; twins.make(rt, 0, &chains));
    assert!(rt; close(rt, twins, 1) && close(rt, twins, 0));
    assert!(rt; has_changed_all(twins) && twins.are_right(rt));
}

#[test]
fn batches_that_pay_are_made(rt: HostRuntime) {
    let mut twins = Twins::open(&rt, VERTICES);
    make_long(&rt, &mut twins);
}
