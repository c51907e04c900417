//! Batches with an end that is no vertex. No update has a loop: the ends of one differ by its type.
use crate::twins::Twins;
use kc_graph::Update;
use kc_keeper::ApplyFault;
use kc_keeper_workers::{apply_by_workers, apply_with};
use std::process::Abort;
use std::sync::Wait;
use std::thread::Threads;

/// The path 0, 1, 2.
const PATH: [Update; 2] = [
    Update {
        add: true,
        u: 0,
        v: 1,
    },
    Update {
        add: true,
        u: 1,
        v: 2,
    },
];

/// The first update would cut the path. The second and the third have no vertex as their end, where there are four.
const OUTSIDE: [Update; 3] = [
    Update {
        add: false,
        u: 0,
        v: 1,
    },
    Update {
        add: true,
        u: 2,
        v: 4,
    },
    Update {
        add: false,
        u: 0,
        v: 9,
    },
];

/// Whether a call has refused the batch, and named its first end that is no vertex with its place.
fn is_refusal(made: Result<(), ApplyFault>) -> bool {
    match made {
        Err(ApplyFault::NoVertex { place, vertex }) => place == 1 && vertex == 4,
        _ => false,
    }
}

/// Whether the keeper that makes batches alone refuses this one.
fn refuses_alone<R: AllocGlobal>(rt: &R, twins: &mut Twins) -> bool {
    let made = twins
        .alone
        .apply(rt.alloc(), &OUTSIDE, &mut twins.by_itself);
    is_refusal(made)
}

/// Whether the other one refuses it, for two workers.
fn refuses_by_workers<R: Threads + Wait + Sync + AllocGlobal>(rt: &R, twins: &mut Twins) -> bool {
    let changes = &mut twins.by_workers;
    let made = apply_by_workers(rt, rt.alloc(), &mut twins.worked, 2, &OUTSIDE, changes);
    is_refusal(made)
}

/// Whether it does so where it may choose who makes it.
fn refuses_with<R: Threads + Wait + Sync + AllocGlobal>(rt: &R, twins: &mut Twins) -> bool {
    let changes = &mut twins.by_workers;
    let made = apply_with(rt, rt.alloc(), &mut twins.worked, 2, &OUTSIDE, changes);
    is_refusal(made)
}

/// Has both make the path, and then refuse the batch. They tell of no change then, and are as they were.
fn refuse_all<R: Threads + Wait + Sync + Abort + AllocGlobal>(rt: &R, twins: &mut Twins) {
    assert!(rt; twins.make(rt, 2, &PATH));
    assert!(rt; refuses_alone(rt, twins) && refuses_by_workers(rt, twins));
    assert!(rt; refuses_with(rt, twins) && twins.stay_alike());
    assert!(rt; twins.by_workers.applied.is_empty() && twins.by_workers.cores.is_empty());
    assert_eq!(rt; twins.worked.core_numbers(), [1, 1, 1, 0].as_slice());
}

#[test]
fn an_end_that_is_no_vertex_is_refused(rt: HostRuntime) {
    let mut twins = Twins::open(&rt, 4);
    refuse_all(&rt, &mut twins);
}
