//! Batches of random updates, by one worker and by many, also where versions run out in the middle.
ghost use Rattle.std.specs.Prelude.{◌≡◌, ◌<◌, ◌≤◌, All, IfOk};

use crate::batch_runs::{enter_all, open};
use kc_batch::BatchDone;
use kc_graph::{Graph, Lawful, NoMemory, Update, decompose_owned};
use kc_shared::Parts;
use kc_table::Entry;
use kc_words::LAST_VERSION;
use kc_workers::NoGate;
use rand::RngExt;
use rand_core::SeedableRng;
use rand_xoshiro::Xoshiro256PlusPlus;
use std::alloc::Global;
use std::process::Abort;
use std::sync::Wait;
use std::test::Fail;
use std::thread::Threads;

/// How many vertices the graphs have.
pub(crate) const VERTICES: u32 = 12;

/// How many updates a batch has.
const UPDATES: u32 = 40;

/// A random update: two of three add their edge.
fn drawn(draws: &mut Xoshiro256PlusPlus) -> Update
    ensures { result.v < VERTICES }
{
    let u = draws.random_range(0..VERTICES - 1);
    let v = draws.random_range(u + 1..VERTICES);
    let add = draws.random_range(0u32..3) > 0;
    Update { add, u, v }
}

/// So many random updates.
pub(crate) fn drawn_batch(alloc: Global, seed: u64) -> Result<Vec<Update>, Fail>
    ensures { IfOk result (λ batch. All (λ u. u.v < VERTICES) batch.items) }
{
    let mut draws = Xoshiro256PlusPlus::seed_from_u64(seed);
    let mut batch = Vec::new(alloc);
    for _ in 0..UPDATES {
        batch.push(drawn(&mut draws))?;
    }
    Ok(batch)
}

/// Makes the changes of the entries.
fn replay<R: Abort>(rt: &R, graph: &mut Graph, entries: &[Entry]) -> Result<(), NoMemory> {
    for entry in entries {
        assert!(rt; entry.u < entry.v && entry.v < graph.vertices());
        if entry.add {
            graph.add(entry.u, entry.v)?;
        } else {
            graph.remove(entry.u, entry.v);
        }
    }
    Ok(())
}

/// The graph that the entries make of an empty one.
fn replayed<R: Abort + AllocGlobal>(rt: &R, entries: &[Entry]) -> Result<Graph, NoMemory> {
    let mut graph = Graph::new(rt.alloc(), VERTICES)?;
    replay(rt, &mut graph, entries)?;
    Ok(graph)
}

/// That graph with its core numbers.
fn decomposed<R: Abort + AllocGlobal>(rt: &R, entries: &[Entry]) -> Result<Lawful, NoMemory> {
    decompose_owned(rt.alloc(), replayed(rt, entries)?)
}

/// The core numbers are those of the graph that the entries make of an empty one.
pub(crate) fn assert_replayed<R: Abort + AllocGlobal>(rt: &R, parts: &Parts) {
    let lawful = decomposed(rt, parts.journal.entries()).expect(rt, "no memory");
    assert_eq!(rt; parts.journal.core_numbers(), lawful.core());
}

/// A batch on this graph, whose table opens with this version, by so many workers.
fn entered<R: Threads + Wait + Sync + Abort + AllocGlobal>(
    rt: &R,
    graph: Graph,
    count: u32,
    version: u32,
    batch: &[Update],
) -> (Parts, BatchDone)
    requires vertices { graph.size ≡ VERTICES }
    requires version { version ≤ LAST_VERSION }
    requires within { All (λ u. u.v < VERTICES) batch.now }
{
    let (parts, workers) = open(rt, graph, count, version);
    enter_all(rt, parts, workers, VERTICES, batch, &NoGate)
}

/// Each update of a random batch on an empty graph has its entry, and each worker its share. Gives how many tables were ended.
fn work<R: Threads + Wait + Sync + Abort + AllocGlobal>(
    rt: &R,
    count: u32,
    version: u32,
) -> Result<usize, Fail>
    requires { version ≤ LAST_VERSION }
{
    let graph = Graph::new(rt.alloc(), VERTICES)?;
    let batch = drawn_batch(rt.alloc(), u64::from(count))?;
    let (parts, done) = entered(rt, graph, count, version, &batch);
    let entered = (parts.journal.entries().len(), done.shares.len());
    assert_eq!(rt; entered, (UPDATES as usize, count as usize));
    assert_replayed(rt, &parts);
    Ok(done.ended.len())
}

#[test]
fn each_update_is_entered_once(rt: HostRuntime) -> Result<(), Fail> {
    let ended = [work(&rt, 1, 0)?, work(&rt, 8, 0)?, work(&rt, 64, 0)?];
    assert_eq!(rt; ended, [0, 0, 0]);
    Ok(())
}

#[test]
fn tables_are_renewed_where_their_versions_are_spent(rt: HostRuntime) -> Result<(), Fail> {
    assert!(rt; work(&rt, 1, LAST_VERSION - 1)? > 0);
    assert!(rt; work(&rt, 8, LAST_VERSION - 1)? > 0);
    Ok(())
}
