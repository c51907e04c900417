//! Batches by each who makes some: the keeper alone, and the workers of a runtime.
use crate::twins::Twins;
use kc_graph::Update;
use kc_keeper::{BatchMaker, KeeperAlone};
use kc_keeper_workers::{RuntimeThreads, RuntimeWorkers, Workforce};
use std::alloc::Global;

/// A triangle, and an edge that is not there and goes.
const BATCH: [Update; 4] = [
    Update {
        add: true,
        u: 0,
        v: 1,
    },
    Update {
        add: true,
        u: 1,
        v: 2,
    },
    Update {
        add: true,
        u: 0,
        v: 2,
    },
    Update {
        add: false,
        u: 2,
        v: 3,
    },
];

/// Whether the updates were made by workers, with no fault.
fn are_made_by_workers<F: Workforce>(alloc: Global, workforce: &F, twins: &mut Twins) -> bool
    requires shareable { ∥ F.shareable workforce.now ∥₁ }
{
    RuntimeWorkers::new(workforce)
        .make_batch(alloc, 4, &mut twins.worked, &BATCH, &mut twins.by_workers)
        .is_ok()
}

#[test]
fn each_maker_leaves_the_same(rt: HostRuntime) {
    let mut twins = Twins::open(&rt, 4);
    let alloc = rt.alloc();
    let alone = KeeperAlone.make_batch(alloc, 4, &mut twins.alone, &BATCH, &mut twins.by_itself);
    assert!(rt; alone.is_ok());
    assert!(rt; are_made_by_workers(alloc, &RuntimeThreads { rt: &rt }, &mut twins));
    assert!(rt; twins.stay_alike());
    assert_eq!(rt; twins.worked.core_numbers(), [2, 2, 2, 0].as_slice());
}
