//! A run whose batches several workers enter, and the graph that it is to have.
ghost use Rattle.std.specs.Prelude.{◌≡◌, ◌<◌, ◌≤◌, ◌+◌, All, IfOk, true, length, vec_len};
ghost use Rattle.kc_queue.specs.declared.consumer.TheConstants.{WORKERS as MOST_WORKERS};
ghost use Rattle.kc_levels.specs.declared.levels.TheConstants.{LAST_NUMBER as MOST_ENTRIES};
ghost use Rattle.kc_words.specs.declared.layout.TheConstants.{INDICES as MOST_INDICES};

use crate::comparing::compare;
use crate::gate::Holding;
use crate::receipts::{look_at, look_at_part, make_entered};
use crate::updates::make_all;
use anyhow::{Result, anyhow, bail};
use kc_batch::{BatchDone, CutShort, IndexedBatch, run_batch};
use kc_graph::{Graph, NoMemory, Update, decompose};
use kc_journal::Journal;
use kc_levels::LAST_NUMBER;
use kc_queue::WORKERS;
use kc_shared::Parts;
use kc_table::{Pass, shape};
use kc_words::{INDICES, LAST_VERSION, VERTICES};
use kc_workers::{Worker, hire};
use std::alloc::Global;
use std::sync::Wait;
use std::thread::Threads;

/// A run with its workers, and the graph that it is to have.
#[derive(Drop)]
pub(crate) struct Crew {
    parts: Parts,
    workers: Vec<Worker>,
    pub(crate) graph: Graph,
    /// The index of the next update.
    next: u32,
    ghost some: { (0 < vec_len workers) × (vec_len workers ≤ MOST_WORKERS) },
    ghost table: { All (λ w. w.table ≡ parts.words) workers.items },
}

/// What a batch has come to.
#[derive(Clone, Copy, Drop)]
pub(crate) struct Worked {
    pub(crate) misses: u64,
    pub(crate) renewals: u64,
}

/// The parts of a run of this graph, in a table that has so many versions left, and a pass of it.
fn open_parts(alloc: Global, graph: &Graph, left: u32) -> Result<(Parts, Pass)>
    ensures { IfOk result (λ r. r.1.table ≡ r.0.words) }
{
    if graph.vertices() > VERTICES {
        bail!("too many vertices");
    }
    let version = LAST_VERSION.saturating_sub(left);
    let state = decompose(alloc, graph)?;
    let (parts, pass) = Parts::open(alloc, state, version)?;
    Ok((parts, pass))
}

/// The parts of a run of this graph, in a table that has so many versions left, and so many workers.
fn open_run(alloc: Global, graph: &Graph, count: u32, left: u32) -> Result<(Parts, Vec<Worker>)>
    ensures some { IfOk result (λ r. (0 < vec_len r.1) × (vec_len r.1 ≤ MOST_WORKERS)) }
    ensures table { IfOk result (λ r. All (λ w. w.table ≡ r.0.words) r.1.items) }
{
    if count == 0 || u64::from(count) > WORKERS {
        bail!("no such number of workers");
    }
    let (parts, mut pass) = open_parts(alloc, graph, left)?;
    let workers = hire(alloc, &parts.words, &mut pass, count)?;
    Ok((parts, workers))
}

/// Whether these updates, the first of which has this index, can be a batch of the run.
fn may_follow(parts: &Parts, first: u32, batch: &[Update]) -> bool
    ensures indices { result ≡ true → (first + length batch.now ≤ MOST_INDICES) }
    ensures within { result ≡ true → (All (λ u. u.v < parts.now.words.shape.fixed) batch.now) }
    ensures numbers { result ≡ true → (length parts.now.journal.entries + length batch.now ≤ MOST_ENTRIES) }
{
    let vertices = shape(&parts.words).fixed;
    let entries = parts.journal.entries().len() as u64;
    let count = batch.len() as u64;
    let few = count <= u64::from(INDICES) && entries <= u64::from(LAST_NUMBER);
    few && u64::from(first) + count <= u64::from(INDICES)
        && entries + count <= u64::from(LAST_NUMBER)
        && batch.iter().all(|update| update.v < vertices)
}

/// Looks at the receipts of a batch that was entered, and makes it in the graph.
fn follow_whole(
    alloc: Global,
    graph: &mut Graph,
    first: u32,
    batch: &[Update],
    done: &BatchDone,
) -> Result<Worked> {
    let misses = look_at(alloc, graph, first, batch, &done.shares)?;
    make_all(graph, batch)?;
    Ok(Worked {
        misses,
        renewals: done.ended.len() as u64,
    })
}

/// Makes those updates of a batch in the graph that were entered before memory ran out. The journal has to have just these, and the shares
/// have to tell each of them once.
fn follow_part(
    alloc: Global,
    graph: &mut Graph,
    first: u32,
    batch: &[Update],
    journal: &Journal,
    cut: &CutShort,
) -> Result<()> {
    let Some(entries) = journal.entries().get(first as usize..) else {
        bail!("entries are lost");
    };
    let told = look_at_part(alloc, graph, first, batch, &cut.shares)?;
    if told != entries.len() {
        bail!("an entry has no receipt");
    }
    make_entered(alloc, graph, first, batch, entries)?;
    compare(alloc, journal, graph)
}

/// Makes what was entered of a batch in the graph, and looks at it. It is an error where anything is wrong, and where memory ran out.
fn follow(
    alloc: Global,
    graph: &mut Graph,
    first: u32,
    batch: &[Update],
    journal: &Journal,
    done: &Result<BatchDone, CutShort>,
) -> Result<Worked> {
    match done {
        Ok(done) => follow_whole(alloc, graph, first, batch, done),
        Err(cut) => {
            follow_part(alloc, graph, first, batch, journal, cut)?;
            Err(NoMemory.into())
        }
    }
}

impl Crew {
    /// A run of this graph with so many workers, in a table that has so many versions left.
    pub(crate) fn open(alloc: Global, graph: Graph, count: u32, left: u32) -> Result<Crew> {
        let (parts, workers) = open_run(alloc, &graph, count, left)?;
        Ok(Crew {
            parts,
            workers,
            graph,
            next: 0,
        })
    }

    /// The graph.
    pub(crate) fn into_graph(self) -> Graph {
        self.graph
    }

    /// Has a batch entered. The graph is left as it was.
    fn enter<R: Threads + Wait + Sync>(
        self,
        rt: &R,
        alloc: Global,
        batch: &[Update],
        gate: &Holding,
    ) -> (Crew, Result<BatchDone, CutShort>)
        requires indices { self.next + length batch.now ≤ MOST_INDICES }
        requires within { All (λ u. u.v < self.parts.words.shape.fixed) batch.now }
        requires numbers { length self.parts.journal.entries + length batch.now ≤ MOST_ENTRIES }
    {
        let Crew {
            parts,
            mut workers,
            graph,
            next,
        } = self;
        let indexed = IndexedBatch {
            first: next,
            updates: batch,
        };
        let (parts, done) = run_batch(rt, alloc, parts, &mut workers, indexed, gate);
        let crew = Crew {
            parts,
            workers,
            graph,
            next: next + batch.len() as u32,
        };
        (crew, done)
    }

    /// Has a batch entered, and looks at its receipts. Where memory runs out some of its updates were entered, each at most once, and the
    /// journal has to have just these.
    pub(crate) fn work<R: Threads + Wait + Sync>(
        self,
        rt: &R,
        alloc: Global,
        batch: &[Update],
        gate: &Holding,
    ) -> (Crew, Result<Worked>) {
        let first = self.next;
        if !may_follow(&self.parts, first, batch) {
            return (self, Err(anyhow!("too many updates")));
        }
        let (mut crew, done) = self.enter(rt, alloc, batch, gate);
        let Crew { parts, graph, .. } = &mut crew;
        let worked = follow(alloc, graph, first, batch, &parts.journal, &done);
        (crew, worked)
    }

    /// It is an error where the journal has other edges, entries or core numbers than it is to have, or an order that does not certify them.
    pub(crate) fn compare(&self, alloc: Global) -> Result<()> {
        if self.parts.journal.entries().len() as u64 != u64::from(self.next) {
            bail!("the journal has not an entry for each update");
        }
        compare(alloc, &self.parts.journal, &self.graph)
    }
}
