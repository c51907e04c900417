//! Keeps the core numbers of a graph while edges come and go, batch by batch, and writes which numbers each batch changed.
//!
//! It shows how `kc_keeper` is used: a keeper opens on a graph with its core numbers, each batch is applied and tells what it changed, and
//! the last one is taken back.
#![tactic(auto)]

ghost use Rattle.std.specs.Prelude.{◌<◌};

use anyhow::Result;
use kc_graph::{Graph, Update, decompose_owned};
use kc_keeper::{Changes, Keeper};
use std::alloc::Global;

/// How many vertices the graph has.
const VERTICES: u32 = 6;

/// The edges in the beginning: two triangles, and an edge that joins them.
const START: [(u32, u32); 7] = [(0, 1), (0, 2), (1, 2), (2, 3), (3, 4), (3, 5), (4, 5)];

/// The update that adds the edge of these ends.
const fn add(u: u32, v: u32) -> Update
    requires { u < v }
{
    Update { add: true, u, v }
}

/// The update that removes the edge of these ends.
const fn remove(u: u32, v: u32) -> Update
    requires { u < v }
{
    Update { add: false, u, v }
}

/// A keeper of the graph of the start.
fn open(alloc: Global) -> Result<Keeper> {
    let graph = Graph::from_pairs(alloc, VERTICES, &START)?;
    let state = decompose_owned(alloc, graph)?;
    Ok(Keeper::open(alloc, state)?)
}

/// Writes the core number of each vertex in a line.
fn write_cores<R: Print>(rt: &R, head: &str, keeper: &Keeper) -> Result<()> {
    print!(rt; "{head}:")?;
    for core in keeper.core_numbers() {
        print!(rt; " {core}")?;
    }
    println!(rt; "")?;
    Ok(())
}

/// Writes what a batch changed: how many edges came and went, and each vertex with another core number, with the one before and the new one.
fn write_changes<R: Print>(rt: &R, head: &str, changes: &Changes) -> Result<()> {
    let Changes { added, removed, .. } = changes;
    println!(rt; "{head}: added {added} removed {removed}")?;
    for change in changes.cores.iter() {
        println!(rt; "  {}: {} -> {}", change.vertex, change.before, change.now)?;
    }
    Ok(())
}

/// Applies a batch, and writes what it changed.
fn apply<R: AllocGlobal + Print>(
    rt: &R,
    keeper: &mut Keeper,
    changes: &mut Changes,
    head: &str,
    batch: &[Update],
) -> Result<()> {
    keeper.apply(rt.alloc(), batch, changes)?;
    write_changes(rt, head, changes)
}

/// Applies the batches in turn, and takes the last one back.
fn keep<R: AllocGlobal + Print>(rt: &R, keeper: &mut Keeper, changes: &mut Changes) -> Result<()> {
    apply(
        rt,
        keeper,
        changes,
        "batch 1",
        &[add(1, 3), add(1, 4), add(2, 4)],
    )?;
    apply(rt, keeper, changes, "batch 2", &[add(2, 4), remove(4, 5)])?;
    apply(
        rt,
        keeper,
        changes,
        "batch 3",
        &[remove(1, 2), remove(1, 3)],
    )?;
    let back = changes.inverse(rt.alloc())?;
    apply(rt, keeper, changes, "taken back", &back)
}

fn main(rt: HostRuntime) -> Result<()> {
    let mut keeper = open(rt.alloc())?;
    let mut changes = Changes::new(rt.alloc());
    write_cores(&rt, "start", &keeper)?;
    keep(&rt, &mut keeper, &mut changes)?;
    write_cores(&rt, "end", &keeper)
}
