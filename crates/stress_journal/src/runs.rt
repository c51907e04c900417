//! One run: some batches on a graph that begins without edges or with what they have left, each in a table with few versions left.
use crate::crew::{Crew, Worked};
use crate::gate::Holding;
use crate::updates::draw_batch;
use anyhow::Result;
use kc_graph::{Graph, Update};
use rand::RngExt;
use rand_core::SeedableRng;
use rand_xoshiro::Xoshiro256PlusPlus;
use std::alloc::Global;
use std::sync::Wait;
use std::thread::Threads;

/// What was done.
#[derive(Clone, Copy, Default, Drop)]
pub(crate) struct Counted {
    pub(crate) runs: u64,
    pub(crate) batches: u64,
    pub(crate) updates: u64,
    pub(crate) misses: u64,
    pub(crate) renewals: u64,
}

impl Counted {
    /// Adds what was done besides.
    pub(crate) fn add(&mut self, other: Counted) {
        self.runs = self.runs.saturating_add(other.runs);
        self.batches = self.batches.saturating_add(other.batches);
        self.updates = self.updates.saturating_add(other.updates);
        self.misses = self.misses.saturating_add(other.misses);
        self.renewals = self.renewals.saturating_add(other.renewals);
    }

    /// Adds a batch of so many updates.
    fn add_batch(&mut self, updates: usize, worked: Worked) {
        self.batches = self.batches.saturating_add(1);
        self.updates = self.updates.saturating_add(updates as u64);
        self.misses = self.misses.saturating_add(worked.misses);
        self.renewals = self.renewals.saturating_add(worked.renewals);
    }
}

/// How large a run is, and where its numbers come from.
#[derive(Drop)]
pub(crate) struct Size {
    pub(crate) workers: u32,
    pub(crate) vertices: u32,
    /// How often the graph is opened anew, in a table with few versions left.
    pub(crate) openings: u32,
    /// How many batches there are in one opening.
    pub(crate) batches: u32,
    /// How many updates are drawn for a batch.
    pub(crate) updates: u32,
    pub(crate) draws: Xoshiro256PlusPlus,
}

impl Size {
    /// A size that follows from the seed.
    pub(crate) fn drawn(seed: u64, workers: u32) -> Size {
        let mut draws = Xoshiro256PlusPlus::seed_from_u64(seed);
        Size {
            workers,
            vertices: draws.random_range(2u32..42),
            openings: 4,
            batches: 3,
            updates: 64,
            draws,
        }
    }

    /// A small run, for one in which memory is refused.
    pub(crate) fn small(seed: u64, workers: u32) -> Size {
        Size {
            workers,
            vertices: 5,
            openings: 1,
            batches: 2,
            updates: 5,
            draws: Xoshiro256PlusPlus::seed_from_u64(seed),
        }
    }
}

/// Counts a batch that was worked. It is an error where that went wrong, or where the journal then is not as it is to be.
fn count_batch(
    alloc: Global,
    crew: &Crew,
    updates: usize,
    worked: Result<Worked>,
    counted: &mut Counted,
) -> Result<()> {
    let worked = worked?;
    crew.compare(alloc)?;
    counted.add_batch(updates, worked);
    Ok(())
}

/// Has a batch entered, and counts it.
fn enter_batch<R: Threads + Wait + Sync>(
    rt: &R,
    alloc: Global,
    crew: Crew,
    batch: &[Update],
    counted: &mut Counted,
) -> Result<Crew> {
    let (crew, worked) = crew.work(rt, alloc, batch, &Holding::new());
    count_batch(alloc, &crew, batch.len(), worked, counted)?;
    Ok(crew)
}

/// One batch. It is an error where the journal then is not as it is to be.
fn work_batch<R: Threads + Wait + Sync>(
    rt: &R,
    alloc: Global,
    size: &mut Size,
    crew: Crew,
    counted: &mut Counted,
) -> Result<Crew> {
    let batch = draw_batch(alloc, &mut size.draws, &crew.graph, size.updates)?;
    enter_batch(rt, alloc, crew, &batch, counted)
}

/// Some batches of one opening. Gives the graph that they leave.
fn work_opening<R: Threads + Wait + Sync>(
    rt: &R,
    alloc: Global,
    size: &mut Size,
    graph: Graph,
    counted: &mut Counted,
) -> Result<Graph> {
    let left = size.draws.random_range(1u32..25);
    let mut crew = Crew::open(alloc, graph, size.workers, left)?;
    for _ in 0..size.batches {
        crew = work_batch(rt, alloc, size, crew, counted)?;
    }
    Ok(crew.into_graph())
}

/// One run. It is an error where anything is wrong.
pub(crate) fn work_run<R: Threads + Wait + Sync>(
    rt: &R,
    alloc: Global,
    mut size: Size,
) -> Result<Counted> {
    let mut counted = Counted::default();
    let mut graph = Graph::new(alloc, size.vertices)?;
    for _ in 0..size.openings {
        graph = work_opening(rt, alloc, &mut size, graph, &mut counted)?;
    }
    counted.runs = 1;
    Ok(counted)
}
