//! A run of workers that enters one batch.
ghost use Rattle.std.specs.Prelude.{◌≡◌, ◌<◌, ◌≤◌, IfOk, length};
ghost use Rattle.kc_queue.specs.declared.consumer.TheConstants.{WORKERS};
ghost use Rattle.kc_levels.specs.declared.levels.TheConstants.{LAST_NUMBER};
ghost use Rattle.kc_keeper.specs.Causes.{EndsAreWithin};
ghost use Rattle.kc_keeper_workers.specs.Working.{IsWorked};

use kc_batch::{IndexedBatch, run_batch};
use kc_graph::{Lawful, NoMemory, Update};
use kc_shared::Parts;
use kc_words::VERTICES;
use kc_workers::{NoGate, hire};
use std::alloc::{AllocError, Global};
use std::sync::Wait;
use std::thread::Threads;

/// Has so many workers enter a batch from this state, and gives the state after it. At `NoMemory` all is dropped, whatever was entered.
pub(crate) fn work<R: Threads + Wait + Sync>(
    rt: &R,
    alloc: Global,
    lawful: Lawful,
    count: u32,
    updates: &[Update],
) -> Result<Lawful, NoMemory>
    requires vertices { lawful.graph.size ≤ VERTICES }
    requires workers { (0 < count) × (count ≤ WORKERS) }
    requires within { EndsAreWithin lawful.graph.size updates.now }
    requires numbers { length updates.now ≤ LAST_NUMBER }
    ensures { IfOk result (λ after. IsWorked lawful.graph updates.now after.graph) }
{
    let (opened, mut pass) = Parts::open(alloc, lawful, 0)?;
    let mut workers = hire(alloc, &opened.words, &mut pass, count)?;
    let batch = IndexedBatch { first: 0, updates };
    let (ended, done) = run_batch(rt, alloc, opened, &mut workers, batch, &NoGate);
    let Ok(_done) = done else {
        return Err(AllocError);
    };
    match ended.close(alloc, Vec::new(alloc)) {
        Ok(after) => Ok(after),
        Err(_) => Err(AllocError),
    }
}
