//! Runs with workers, and a batch that they enter.
ghost use Rattle.std.specs.Prelude.{◌≡◌, ◌<◌, ◌≤◌, All, length};

use kc_batch::{BatchDone, IndexedBatch, run_batch};
use kc_graph::{Graph, Update, decompose_owned};
use kc_shared::Parts;
use kc_table::shape;
use kc_words::{LAST_VERSION, VERTICES};
use kc_workers::{Gate, Worker, WorkerShare, hire};
use std::process::Abort;
use std::sync::Wait;
use std::thread::Threads;

/// The index of the first update of a batch.
pub(crate) const FIRST: u32 = 7;

/// A run on this graph whose table opens with this version, and so many workers.
pub(crate) fn open<R: Abort + AllocGlobal>(
    rt: &R,
    graph: Graph,
    count: u32,
    version: u32,
) -> (Parts, Vec<Worker>)
    requires few { graph.size ≤ VERTICES }
    requires version { version ≤ LAST_VERSION }
    ensures workers { All (λ w. w.table ≡ result.0.words) result.1.items }
    ensures entries { length result.0.journal.entries ≡ 0 }
{
    let lawful = decompose_owned(rt.alloc(), graph).expect(rt, "no memory");
    let (parts, mut pass) = Parts::open(rt.alloc(), lawful, version).expect(rt, "no memory");
    let workers = hire(rt.alloc(), &parts.words, &mut pass, count).expect(rt, "no memory");
    (parts, workers)
}

/// How many updates stand in the shares.
fn told(shares: &[WorkerShare]) -> usize {
    let mut told = 0usize;
    for share in shares {
        told = told.wrapping_add(share.done.len());
    }
    told
}

/// Has the workers enter a batch of updates among so many vertices. Each update has an entry then, and stands in a share.
pub(crate) fn enter_all<G: Gate + Sync, R: Threads + Wait + Sync + Abort + AllocGlobal>(
    rt: &R,
    parts: Parts,
    mut workers: Vec<Worker>,
    vertices: u32,
    batch: &[Update],
    gate: &G,
) -> (Parts, BatchDone)
    requires workers { All (λ w. w.table ≡ parts.words) workers.items }
    requires entries { length parts.journal.entries ≡ 0 }
    requires within { All (λ u. u.v < vertices) batch.now }
{
    assert_eq!(rt; shape(&parts.words).fixed, vertices);
    assert!(rt; !workers.is_empty() && workers.len() <= 64 && batch.len() < 100);
    let indexed = IndexedBatch {
        first: FIRST,
        updates: batch,
    };
    let (parts, done) = run_batch(rt, rt.alloc(), parts, &mut workers, indexed, gate);
    let Ok(done) = done else {
        panic!(rt; "no memory")
    };
    let entered = (parts.journal.entries().len(), told(done.shares.as_slice()));
    assert_eq!(rt; entered, (batch.len(), batch.len()));
    (parts, done)
}
