//! Has two workers make batches of updates for a keeper, and writes the core numbers after each batch.
//!
//! It shows how `kc_hindex` and `kc_keeper_workers` are used: the core numbers of the start come from rounds of h-indices in threads and get
//! an order that certifies them; a keeper opens on them; each batch is made by all workers at once. Which worker enters what depends on the
//! schedule; what the program writes does not.
#![tactic(auto)]

ghost use Rattle.std.specs.Prelude.{◌<◌};

use anyhow::Result;
use kc_graph::{Graph, Update};
use kc_hindex::{lawful, peel};
use kc_keeper::{Changes, Keeper};
use kc_keeper_workers::apply_by_workers;
use std::sync::Wait;
use std::thread::Threads;

/// How many vertices the graph has.
const VERTICES: u32 = 6;

/// The edges in the beginning: two triangles, and an edge that joins them.
const START: [(u32, u32); 7] = [(0, 1), (0, 2), (1, 2), (2, 3), (3, 4), (3, 5), (4, 5)];

/// How many workers make each batch. `apply_with` would leave batches as small as these to the keeper alone.
const WORKERS: u32 = 2;

/// The update that adds the edge of these ends.
const fn add(u: u32, v: u32) -> Update
    requires { u < v }
{
    Update { add: true, u, v }
}

/// The update that removes the edge of these ends.
const fn remove(u: u32, v: u32) -> Update
    requires { u < v }
{
    Update { add: false, u, v }
}

/// A keeper of the graph of the start, whose core numbers come from rounds of h-indices.
fn open<R: Threads + Wait + Sync + AllocGlobal>(rt: &R) -> Result<Keeper> {
    let graph = Graph::from_pairs(rt.alloc(), VERTICES, &START)?;
    let peeled = peel(rt, rt.alloc(), &graph)?;
    let state = lawful(rt.alloc(), graph, peeled.core)?;
    Ok(Keeper::open(rt.alloc(), state)?)
}

/// Writes the core number of each vertex in a line.
fn write_cores<R: Print>(rt: &R, head: &str, keeper: &Keeper) -> Result<()> {
    print!(rt; "{head}:")?;
    for core in keeper.core_numbers() {
        print!(rt; " {core}")?;
    }
    println!(rt; "")?;
    Ok(())
}

/// Has the workers make a batch, and writes the core numbers after it.
fn work<R: Threads + Wait + Sync + AllocGlobal + Print>(
    rt: &R,
    keeper: &mut Keeper,
    head: &str,
    batch: &[Update],
) -> Result<()> {
    let mut changes = Changes::new(rt.alloc());
    apply_by_workers(rt, rt.alloc(), keeper, WORKERS, batch, &mut changes)?;
    write_cores(rt, head, keeper)
}

/// Has the workers make the batches in turn.
fn work_all<R: Threads + Wait + Sync + AllocGlobal + Print>(
    rt: &R,
    keeper: &mut Keeper,
) -> Result<()> {
    work(rt, keeper, "batch 1", &[add(1, 3), add(1, 4), add(2, 4)])?;
    work(
        rt,
        keeper,
        "batch 2",
        &[add(2, 5), add(1, 5), remove(0, 1), remove(0, 2)],
    )?;
    work(
        rt,
        keeper,
        "batch 3",
        &[remove(2, 3), remove(4, 5), add(0, 5)],
    )
}

fn main(rt: HostRuntime) -> Result<()> {
    let mut keeper = open(&rt)?;
    write_cores(&rt, "start", &keeper)?;
    work_all(&rt, &mut keeper)
}
