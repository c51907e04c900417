//! A run whose batches several workers enter, and a plain graph beside it.
ghost use Rattle.std.specs.Prelude.{◌≡◌, ◌<◌, ◌≤◌, ◌+◌, All, IfOk, true, length, vec_len};
ghost use Rattle.kc_queue.specs.declared.consumer.TheConstants.{WORKERS as MOST_WORKERS};
ghost use Rattle.kc_levels.specs.declared.levels.TheConstants.{LAST_NUMBER as MOST_ENTRIES};
ghost use Rattle.kc_words.specs.declared.layout.TheConstants.{INDICES as MOST_INDICES, VERTICES as MOST_VERTICES};

use crate::comparing::{Numbers, has_edges_of};
use crate::graphs::{change, draw};
use anyhow::{Result, bail};
use kc_batch::{BatchDone, CutShort, IndexedBatch, run_batch};
use kc_graph::{Graph, NoMemory, Update, decompose};
use kc_levels::LAST_NUMBER;
use kc_queue::WORKERS;
use kc_shared::Parts;
use kc_table::{Entry, shape};
use kc_words::{INDICES, VERTICES};
use kc_workers::{NoGate, Worker, hire};
use rand_core::SeedableRng;
use rand_xoshiro::Xoshiro256PlusPlus;
use std::alloc::Global;
use std::rt::Clock;
use std::sync::Wait;
use std::thread::Threads;
use std::time::{Duration, Instant};

/// A run with its workers, a graph that is to have its edges, and the draws that updates come from.
#[derive(Drop)]
pub(crate) struct Crewed {
    parts: Parts,
    workers: Vec<Worker>,
    graph: Graph,
    draws: Xoshiro256PlusPlus,
    /// The index of the next update.
    next: u32,
    ghost some: { (0 < vec_len workers) × (vec_len workers ≤ MOST_WORKERS) },
    ghost table: { All (λ w. w.table ≡ parts.words) workers.items },
}

/// So many updates of a graph; fewer where it has less than two vertices.
fn draw_batch(
    alloc: Global,
    draws: &mut Xoshiro256PlusPlus,
    graph: &Graph,
    updates: u32,
) -> Result<Vec<Update>, NoMemory> {
    let mut batch = Vec::new(alloc);
    for _ in 0..updates {
        if let Some(update) = draw(draws, graph) {
            batch.push(update)?;
        }
    }
    Ok(batch)
}

/// Whether these updates, the first of which has this index, can be a batch of the run.
fn may_follow(parts: &Parts, first: u32, batch: &[Update]) -> bool
    ensures indices { result ≡ true → (first + length batch.now ≤ MOST_INDICES) }
    ensures within { result ≡ true → (All (λ u. u.v < parts.now.words.shape.fixed) batch.now) }
    ensures numbers { result ≡ true → (length parts.now.journal.entries + length batch.now ≤ MOST_ENTRIES) }
{
    let vertices = shape(&parts.words).fixed;
    let entries = parts.journal.entries().len() as u64;
    let count = batch.len() as u64;
    let few = count <= u64::from(INDICES) && entries <= u64::from(LAST_NUMBER);
    few && u64::from(first) + count <= u64::from(INDICES)
        && entries + count <= u64::from(LAST_NUMBER)
        && batch.iter().all(|update| update.v < vertices)
}

/// Makes what was entered in the plain graph, in the order of the entries.
fn follow(graph: &mut Graph, entries: &[Entry]) -> Result<(), NoMemory> {
    for entry in entries {
        if entry.u < entry.v {
            change(
                graph,
                Update {
                    add: entry.add,
                    u: entry.u,
                    v: entry.v,
                },
            )?;
        }
    }
    Ok(())
}

/// Makes in the graph what was entered after so many entries. Answers how long the entry took, which began then.
fn follow_done<R: Clock>(
    rt: &R,
    graph: &mut Graph,
    entries: &[Entry],
    before: usize,
    start: Instant,
    done: Result<BatchDone, CutShort>,
) -> Result<Duration> {
    let took = start.elapsed(rt)?;
    if done.is_err() {
        bail!("no memory for the batch");
    }
    let Some(made) = entries.get(before..) else {
        bail!("entries are lost");
    };
    follow(graph, made)?;
    Ok(took)
}

/// The parts of a run of this graph, and so many workers.
fn open_run(alloc: Global, graph: &Graph, count: u32) -> Result<(Parts, Vec<Worker>), NoMemory>
    requires few { graph.now.size ≤ MOST_VERTICES }
    ensures count { IfOk result (λ r. vec_len r.1 ≡ count) }
    ensures table { IfOk result (λ r. All (λ w. w.table ≡ r.0.words) r.1.items) }
{
    let (parts, mut pass) = Parts::open(alloc, decompose(alloc, graph)?, 0)?;
    let workers = hire(alloc, &parts.words, &mut pass, count)?;
    Ok((parts, workers))
}

impl Crewed {
    /// A run of this graph with so many workers.
    pub(crate) fn open(alloc: Global, graph: Graph, count: u32, seed: u64) -> Result<Crewed> {
        if graph.vertices() > VERTICES {
            bail!("too many vertices");
        }
        if count == 0 || u64::from(count) > WORKERS {
            bail!("no such number of workers");
        }
        let (parts, workers) = open_run(alloc, &graph, count)?;
        Ok(Crewed {
            parts,
            workers,
            graph,
            draws: Xoshiro256PlusPlus::seed_from_u64(seed),
            next: 0,
        })
    }

    /// Draws a batch that the run can enter. It is an error where it can't.
    fn draw(&mut self, alloc: Global, updates: u32) -> Result<Vec<Update>>
        ensures indices { IfOk result (λ batch. self.new.next + length batch.items ≤ MOST_INDICES) }
        ensures within { IfOk result (λ batch. All (λ u. u.v < self.new.parts.words.shape.fixed) batch.items) }
        ensures numbers { IfOk result (λ batch. length self.new.parts.journal.entries + length batch.items ≤ MOST_ENTRIES) }
    {
        let batch = draw_batch(alloc, &mut self.draws, &self.graph, updates)?;
        if !may_follow(&self.parts, self.next, &batch) {
            bail!("too many updates");
        }
        Ok(batch)
    }

    /// Has the workers enter a batch. The graph is left as it was.
    fn enter<R: Threads + Wait + Sync>(
        self,
        rt: &R,
        alloc: Global,
        batch: &[Update],
    ) -> (Crewed, Result<BatchDone, CutShort>)
        requires indices { self.next + length batch.now ≤ MOST_INDICES }
        requires within { All (λ u. u.v < self.parts.words.shape.fixed) batch.now }
        requires numbers { length self.parts.journal.entries + length batch.now ≤ MOST_ENTRIES }
    {
        let Crewed {
            parts,
            mut workers,
            graph,
            draws,
            next,
        } = self;
        let indexed = IndexedBatch {
            first: next,
            updates: batch,
        };
        let (parts, done) = run_batch(rt, alloc, parts, &mut workers, indexed, &NoGate);
        let crewed = Crewed {
            parts,
            workers,
            graph,
            draws,
            next: next + batch.len() as u32,
        };
        (crewed, done)
    }

    /// Has the workers enter a batch, and makes it in the graph. Answers how long `run_batch` took.
    fn enter_timed<R: Threads + Wait + Sync + AllocGlobal + Clock>(
        self,
        rt: &R,
        batch: &[Update],
    ) -> Result<(Crewed, Duration)>
        requires indices { self.next + length batch.now ≤ MOST_INDICES }
        requires within { All (λ u. u.v < self.parts.words.shape.fixed) batch.now }
        requires numbers { length self.parts.journal.entries + length batch.now ≤ MOST_ENTRIES }
    {
        let before = self.parts.journal.entries().len();
        let start = Instant::now(rt)?;
        let (mut crewed, done) = self.enter(rt, rt.alloc(), batch);
        let Crewed { parts, graph, .. } = &mut crewed;
        let took = follow_done(rt, graph, parts.journal.entries(), before, start, done)?;
        Ok((crewed, took))
    }

    /// Draws a batch, and has it entered. Answers how long `run_batch` took. It is an error where it is not entered.
    pub(crate) fn work<R: Threads + Wait + Sync + AllocGlobal + Clock>(
        mut self,
        rt: &R,
        updates: u32,
    ) -> Result<(Crewed, Duration)> {
        let batch = self.draw(rt.alloc(), updates)?;
        self.enter_timed(rt, &batch)
    }

    /// It is an error where the journal has other neighbours, core numbers or totals than the graph, or an order that does not certify them.
    pub(crate) fn compare(&self, alloc: Global) -> Result<()> {
        let numbers = Numbers::of(alloc, &self.parts.journal)?;
        if !has_edges_of(&self.parts.journal, &self.graph) {
            bail!("the journal has other edges");
        }
        if !numbers.fit(alloc, &self.graph)? {
            bail!("the journal has other core numbers, or an order that does not certify them");
        }
        Ok(())
    }

    /// How many updates were entered.
    pub(crate) fn entered(&self) -> usize {
        self.parts.journal.entries().len()
    }
}
