//! Batches worked out by hand, on the run that begins with the edges 0 1 and 2 3: all core numbers are 1, and the order is 0, 1, 2, 3.
ghost use Rattle.std.specs.Prelude.{◌≡◌, ◌<◌, ◌≤◌, All, IfOk};

use crate::batch_runs::{FIRST, enter_all, open};
use kc_batch::BatchDone;
use kc_graph::{Graph, Update};
use kc_shared::Parts;
use kc_words::LAST_VERSION;
use kc_workers::{Gate, NoGate, WorkerShare};
use std::alloc::Global;
use std::process::Abort;
use std::sync::Wait;
use std::sync::atomic::{AtomicU64, Ordering};
use std::test::Fail;
use std::thread;
use std::thread::Threads;

/// How often a worker looks whether the other one has come.
const TURNS: u32 = 100_000_000;

/// The graph of the two edges.
fn two_edges(alloc: Global) -> Result<Graph, Fail>
    ensures { IfOk result (λ graph. graph.size ≡ 4) }
{
    Ok(Graph::from_pairs(alloc, 4, &[(0, 1), (2, 3)])?)
}

/// A batch on the two edges, whose table opens with this version, by so many workers.
fn work<G: Gate + Sync, R: Threads + Wait + Sync + Abort + AllocGlobal>(
    rt: &R,
    count: u32,
    version: u32,
    batch: &[Update],
    gate: &G,
) -> Result<(Parts, BatchDone), Fail>
    requires version { version ≤ LAST_VERSION }
    requires within { All (λ u. u.v < 4) batch.now }
{
    let (parts, workers) = open(rt, two_edges(rt.alloc())?, count, version);
    Ok(enter_all(rt, parts, workers, 4, batch, gate))
}

/// The updates that make a circle of the two edges.
fn circle() -> [Update; 2]
    ensures { All (λ u. u.v < 4) result }
{
    [
        Update {
            add: true,
            u: 0,
            v: 2,
        },
        Update {
            add: true,
            u: 1,
            v: 3,
        },
    ]
}

/// The run has these vertices in this order.
fn assert_order<R: Abort + AllocGlobal>(
    rt: &R,
    parts: &Parts,
    wanted: [u32; 4],
) -> Result<(), Fail> {
    let order = parts.journal.order(rt.alloc())?;
    assert_eq!(rt; order.as_slice(), wanted.as_slice());
    Ok(())
}

#[test]
fn one_worker_goes_on_in_a_fresh_table(rt: HostRuntime) -> Result<(), Fail> {
    let batch = [Update {
        add: true,
        u: 0,
        v: 2,
    }];
    let (parts, done) = work(&rt, 1, LAST_VERSION - 1, &batch, &NoGate)?;
    assert_eq!(rt; done.ended.len(), 1);
    assert_order(&rt, &parts, [1, 0, 2, 3])
}

#[test]
fn two_workers_go_on_in_one_fresh_table(rt: HostRuntime) -> Result<(), Fail> {
    let (parts, done) = work(&rt, 2, LAST_VERSION - 1, &circle(), &NoGate)?;
    assert_eq!(rt; done.ended.len(), 1);
    assert_eq!(rt; parts.journal.core_numbers(), [2, 2, 2, 2].as_slice());
    Ok(())
}

/// Holds each of two updates, at its first call, until the other one's was called too, and notes who was called for it last.
#[derive(Drop)]
struct Meeting {
    calls: [AtomicU64; 2],
    workers: [AtomicU64; 2],
    met: AtomicU64,
}

impl Meeting {
    /// Nobody has come yet.
    fn new() -> Meeting {
        Meeting {
            calls: [AtomicU64::new(0), AtomicU64::new(0)],
            workers: [AtomicU64::new(0), AtomicU64::new(0)],
            met: AtomicU64::new(0),
        }
    }
}

impl Gate for Meeting {
    fn before_enter(&self, worker: u32, index: u32) {
        let mine = usize::from(index != FIRST);
        self.workers[mine].store(u64::from(worker), Ordering::SeqCst);
        if self.calls[mine].swap(1, Ordering::SeqCst) > 0 {
            return;
        }
        for _ in 0..TURNS {
            if self.calls[1 - mine].load(Ordering::SeqCst) > 0 {
                self.met.fetch_add(1, Ordering::SeqCst);
                return;
            }
            thread::yield_now();
        }
    }
}

/// The share is of the worker that was called for what stands in it.
fn assert_called<R: Abort>(rt: &R, meeting: &Meeting, share: &WorkerShare) {
    for one in &share.done {
        let mine = usize::from(one.receipt.index != FIRST);
        assert_eq!(rt;
            meeting.workers[mine].load(Ordering::SeqCst),
            u64::from(share.worker)
        );
    }
}

#[test]
fn two_workers_meet_before_they_enter(rt: HostRuntime) -> Result<(), Fail> {
    let meeting = Meeting::new();
    let (parts, done) = work(&rt, 2, 0, &circle(), &meeting)?;
    assert_eq!(rt; meeting.met.load(Ordering::SeqCst), 2);
    for share in &done.shares {
        assert_called(&rt, &meeting, share);
    }
    assert_eq!(rt; parts.journal.core_numbers(), [2, 2, 2, 2].as_slice());
    Ok(())
}
