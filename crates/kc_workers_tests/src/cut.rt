//! A batch that is cut short where memory runs out, and another call that enters what is left of it.
ghost use Rattle.std.specs.Prelude.{◌≡◌, ◌<◌, ◌≤◌, All, length, vec_len};

use crate::batch_runs::{FIRST, open};
use crate::random::{VERTICES, assert_replayed, drawn_batch};
use kc_batch::{IndexedBatch, run_batch};
use kc_graph::{Graph, Update};
use kc_shared::Parts;
use kc_table::shape;
use kc_words::LAST_VERSION;
use kc_workers::{NoGate, Worker, WorkerShare};
use std::process::Abort;
use std::sync::Wait;
use std::test::Fail;
use std::thread::Threads;

/// The index of the first update of what is left.
const NEXT: u32 = 1000;

/// Whether the share has a receipt of this index.
fn tells(share: &WorkerShare, index: u32) -> bool {
    if let Some(receipt) = share.untold {
        if receipt.index == index {
            return true;
        }
    }
    for one in &share.done {
        if one.receipt.index == index {
            return true;
        }
    }
    false
}

/// Whether one of the shares has a receipt of this index.
fn is_told(shares: &[WorkerShare], index: u32) -> bool {
    for share in shares {
        if tells(share, index) {
            return true;
        }
    }
    false
}

/// The updates of the batch that have no receipt in the shares.
fn rest_of<R: Abort + AllocGlobal>(rt: &R, batch: &[Update], shares: &[WorkerShare]) -> Vec<Update>
    requires { All (λ u. u.v < VERTICES) batch.now }
    ensures { All (λ u. u.v < VERTICES) result.items }
{
    let mut rest = Vec::new(rt.alloc());
    let mut index = FIRST;
    for update in batch {
        if !is_told(shares, index) {
            rest.push(*update).expect(rt, "no memory");
        }
        index = index.wrapping_add(1);
    }
    rest
}

/// Enters what a batch has left, of which so many updates were entered.
fn enter_rest<R: Threads + Wait + Sync + Abort + AllocGlobal>(
    rt: &R,
    parts: Parts,
    workers: &mut Vec<Worker>,
    rest: &[Update],
    entered: usize,
) -> Parts
    requires workers { All (λ w. w.table ≡ parts.words) workers.old.items }
    requires within { All (λ u. u.v < VERTICES) rest.now }
{
    assert_eq!(rt; shape(&parts.words).fixed, VERTICES);
    assert!(rt; !workers.is_empty() && workers.len() <= 64);
    assert!(rt; rest.len() < 100 && entered < 100);
    assert_eq!(rt; parts.journal.entries().len(), entered);
    let indexed = IndexedBatch {
        first: NEXT,
        updates: rest,
    };
    let (parts, done) = run_batch(rt, rt.alloc(), parts, workers, indexed, &NoGate);
    assert!(rt; done.is_ok());
    parts
}

/// Enters a batch. Where memory runs out, another call enters what is left.
fn enter_in_two<R: Threads + Wait + Sync + Abort + AllocGlobal>(
    rt: &R,
    parts: Parts,
    mut workers: Vec<Worker>,
    batch: &[Update],
) -> Parts
    requires workers { All (λ w. w.table ≡ parts.words) workers.items }
    requires entries { length parts.journal.entries ≡ 0 }
    requires within { All (λ u. u.v < VERTICES) batch.now }
{
    assert_eq!(rt; shape(&parts.words).fixed, VERTICES);
    assert!(rt; !workers.is_empty() && workers.len() <= 64 && batch.len() < 100);
    let indexed = IndexedBatch {
        first: FIRST,
        updates: batch,
    };
    let (parts, done) = run_batch(rt, rt.alloc(), parts, &mut workers, indexed, &NoGate);
    let Err(cut) = done else {
        return parts;
    };
    let rest = rest_of(rt, batch, &cut.shares);
    let entered = batch.len().wrapping_sub(rest.len());
    enter_rest(rt, parts, &mut workers, &rest, entered)
}

/// With no request for memory refused nothing is left. `rt try --test --fail-alloc N` refuses the one of this number.
#[test]
fn another_call_enters_what_is_left(rt: HostRuntime) -> Result<(), Fail> {
    let graph = Graph::new(rt.alloc(), VERTICES)?;
    let batch = drawn_batch(rt.alloc(), 3)?;
    let count = batch.len();
    let (parts, workers) = open(&rt, graph, 2, LAST_VERSION - 1);
    let parts = enter_in_two(&rt, parts, workers, &batch);
    assert_eq!(rt; parts.journal.entries().len(), count);
    assert_replayed(&rt, &parts);
    Ok(())
}
