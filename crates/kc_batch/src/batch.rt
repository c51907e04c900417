//! A batch of updates, entered by several workers.
ghost use Rattle.std.specs.Prelude.{◌≡◌, ◌<◌, ◌≤◌, ◌+◌, ℕ, List, [], All, IfErr, IfOk, OnOk, length, map, slice_index_or};
ghost use Rattle.std.specs.Prelude.{vec_len, vec_capacity};
ghost use Rattle.kc_table.specs.Log.{TableName};
ghost use Rattle.kc_queue.specs.declared.consumer.TheConstants.{WORKERS};
ghost use Rattle.kc_queue.specs.Shares.{IsShare, AreAllBelow};
ghost use Rattle.kc_levels.specs.declared.levels.TheConstants.{LAST_NUMBER};
ghost use Rattle.kc_journal.specs.Journals.{Journalled, Stands};
ghost use Rattle.kc_workers.specs.declared.share.WorkerShare.{WorkerShare};
ghost use Rattle.kc_batch.specs.Batches.{Account, IsBatchDone, IsCutShort, IsStateOfBatch};
ghost use Rattle.kc_batch.specs.Desks.{KeepsOneOf, at_turns, untold_of};
ghost use Rattle.kc_batch.specs.Seats.{AreTurnsOf};

use crate::desk::Desk;
use crate::done::{BatchDone, CutShort};
use crate::indexed::IndexedBatch;
use crate::left::Left;
use crate::order::order_of;
use crate::round::{run_round, tell_all};
use crate::state::BatchState;
use crate::turns::TurnQueue;
use kc_graph::NoMemory;
use kc_queue::WorkQueue;
use kc_shared::Parts;
use kc_table::{Pass, shape};
use kc_words::INDICES;
use kc_workers::{Gate, Worker, WorkerShare};
use std::alloc::{AllocError, Global};
use std::marker::Brand;
use std::sync::Wait;
use std::sync::ledger::Blank;
use std::thread::Threads;

/// Gives each worker a desk. The list of workers keeps its room.
fn open_desks(alloc: Global, workers: &mut Vec<Worker>, mut desks: Vec<Desk>) -> Vec<Desk>
    requires room { (desks.items ≡ []) × (vec_len workers.old ≤ vec_capacity desks) }
    ensures workers { (workers.new.items ≡ []) × (vec_len workers.old ≤ vec_capacity workers.new) }
    ensures as_many { vec_len result ≡ vec_len workers.old }
    ensures table { (t : TableName) → All (λ w. w.table ≡ t) workers.old.items → All (λ d. d.seen.table ≡ t) result.items }
    ensures nothing { All (λ d. d.work ≡ record { done = []; left = Left.Nothing }) result.items }
{
    for worker in workers.drain(..) {
        desks.push_reserved(Desk {
            worker,
            done: Vec::new(alloc),
            left: Left::Nothing,
        });
    }
    desks
}

/// Gives each worker back, and what it has entered as its share.
fn close_desks(
    desks: Vec<Desk>,
    workers: &mut Vec<Worker>,
    mut shares: Vec<WorkerShare>,
) -> Vec<WorkerShare>
    requires workers { (workers.old.items ≡ []) × (vec_len desks ≤ vec_capacity workers.old) }
    requires shares { (shares.items ≡ []) × (vec_len desks ≤ vec_capacity shares) }
    requires few { vec_len desks ≤ WORKERS }
    ensures workers { workers.new.items ≡ map (λ d. d.seen) desks.items }
    ensures done { map (λ s. s.done.items) result.items ≡ map (λ d. d.work.done) desks.items }
    ensures untold { map (λ s. s.untold) result.items ≡ map (λ d. untold_of d.work.left) desks.items }
    ensures one_each { vec_len result ≡ vec_len desks }
    ensures numbered { (i : ℕ) (d : WorkerShare) → i < length result.items → (slice_index_or result.items i d).worker ≡ i }
{
    for desk in desks {
        let Desk { worker, done, left } = desk;
        workers.push_reserved(worker);
        let number = shares.len() as u32;
        shares.push_reserved(WorkerShare {
            worker: number,
            done,
            untold: left.untold(),
        });
    }
    shares
}

/// Rounds of workers, with a renewal of the table between two of them where its versions are nearly spent, until all updates of the batch
/// are entered or memory runs out. A gate may end a round earlier, and another one follows. Gives a pass of each table that was ended, also
/// where memory ran out.
fn work_off<G: Gate + Sync, R: Threads + Wait + Sync>(
    rt: &R,
    alloc: Global,
    mut state: BatchState,
    turns: &TurnQueue<'_>,
    gate: &G,
) -> (BatchState, Vec<Pass>, Result<(), NoMemory>)
    ghost began: { Journalled }
    requires state { IsStateOfBatch began turns.now [] state }
    requires keeps { All (λ d. KeepsOneOf (length turns.now.batch.updates.now) d.work.left) state.desks.items }
    requires some { (0 < vec_len state.desks) × (vec_len state.desks ≤ WORKERS) }
    requires numbers { length began.entries + length turns.now.batch.updates.now ≤ LAST_NUMBER }
    requires turns { AreTurnsOf turns.now }
    requires within { All (λ u. u.v < state.parts.words.shape.fixed) turns.now.batch.updates.now }
    ensures as_many { vec_len result.0.desks ≡ vec_len state.desks }
    ensures state { IsStateOfBatch began turns.now result.1.items result.0 }
    ensures whole { OnOk result.2 (AreAllBelow turns.now.queue.count (at_turns turns.now.order.items result.0.consumer.taken)
        × All (λ d. d.work.left ≡ Left.Nothing) result.0.desks.items) }
{
    let mut ended = Vec::new(alloc);
    for _ in rt.forever() {
        state.parts.journal.recall_stands();
        let blank = Blank::new(state.desks.len() as u64);
        state = match run_round::<Brand, G, R>(rt, alloc, blank, state, turns, gate) {
            Ok(after) => after,
            Err(before) => return (before, ended, Err(AllocError)),
        };
        state.parts.journal.recall_stands();
        match state.go_on(rt, alloc, turns, &mut ended) {
            Ok(true) => {}
            Ok(false) => return (state, ended, Ok(())),
            Err(fault) => return (state, ended, Err(fault)),
        }
    }
    unreachable!()
}

/// Works off a batch from desks that have been told all and have nothing left. Gives them back with the parts and what `work_off` gives,
/// also where memory runs out.
fn run_desks<G: Gate + Sync, R: Threads + Wait + Sync>(
    rt: &R,
    alloc: Global,
    parts: Parts,
    desks: Vec<Desk>,
    batch: IndexedBatch<'_>,
    gate: &G,
) -> (Parts, Vec<Desk>, Vec<Pass>, Result<(), NoMemory>)
    requires told { All (λ d. d.seen ≡ record { table = parts.words; log = parts.journal.levels.log }) desks.items }
    requires nothing { All (λ w. w ≡ record { done = []; left = Left.Nothing }) (map (λ d. d.work) desks.items) }
    requires some { (0 < vec_len desks) × (vec_len desks ≤ WORKERS) }
    requires numbers { length parts.journal.entries + length batch.updates.now ≤ LAST_NUMBER }
    requires indices { batch.first + length batch.updates.now ≤ INDICES }
    requires within { All (λ u. u.v < parts.words.shape.fixed) batch.updates.now }
    ensures as_many { vec_len result.1 ≡ vec_len desks }
    ensures worked { (taken : List ℕ) × IsShare (length batch.entry.updates.now) taken
        × OnOk result.3 (AreAllBelow (length batch.entry.updates.now) taken)
        × Account parts.journal result.0.journal batch.entry.first batch.entry.updates.now result.2.items
        (map (λ d. d.work) result.1.items) taken }
    ensures nothing { OnOk result.3 (All (λ d. d.work.left ≡ Left.Nothing) result.1.items) }
    ensures told { All (λ d. d.seen ≡ record { table = result.0.words; log = result.0.journal.levels.log }) result.1.items }
{
    parts.journal.recall_stands();
    let updates = batch.updates;
    if updates.is_empty() {
        return (parts, desks, Vec::new(alloc), Ok(()));
    }
    let Ok((queue, consumer)) = WorkQueue::filled(rt, alloc, updates.len() as u32) else {
        return (parts, desks, Vec::new(alloc), Err(AllocError));
    };
    let vertices = shape(&parts.words).fixed;
    let core_numbers = parts.journal.core_numbers();
    let Ok(order) = order_of(alloc, vertices, core_numbers, updates) else {
        return (parts, desks, Vec::new(alloc), Err(AllocError));
    };
    let turns = TurnQueue {
        batch,
        queue,
        order,
    };
    let state = BatchState {
        parts,
        desks,
        consumer,
    };
    let (state, ended, worked) = work_off(rt, alloc, state, &turns, gate);
    let BatchState { parts, desks, .. } = state;
    (parts, desks, ended, worked)
}

/// Enters all updates of a batch. Each has the index that the batch gives it.
///
/// There is one worker for each of `workers`. In each round they run in as many threads as `gate` says, where these can be made, but in no
/// more than there are updates left: of several in one thread the first takes what there is. A gate that says nothing has a thread for each
/// worker. One thread is the caller's. They take the updates from one queue: removals first, from the innermost cores on, then insertions.
/// The insertions of a large batch, of at least one update for each 16 vertices, are peeled as a graph of their own, and those of the
/// vertices that come last in that are taken first; those of a smaller batch stand as they were given. Where the versions of the table are
/// nearly spent the run goes on in a fresh one, and an update that could not be entered for that is entered there. So a table is ended as
/// often as versions were nearly spent.
///
/// Removals come before insertions, so a batch is to name each pair at most once if it is to mean what its lines say: of `+ a b` and then
/// `- a b` the edge is left. `kc_batch_effects::decide` makes such a batch of any updates, by the rule that the last one of a pair wins.
///
/// At Ok each update of the batch is an entry, once, and stands in one share, once, and no other entry was made. `CutShort` comes where
/// there was no memory: then some of the updates were entered, each at most once, and each entry has one receipt in the shares. What has no
/// receipt there was not entered, and can be entered by another call. An update whose lists could not be published after it was entered
/// stands as `untold` in its worker's share. Where not even the list of shares could be made, nothing was entered.
///
/// Whatever is answered, the journal stands, its entries go on from the old ones, no more tables were ended than the batch has updates, and
/// there are as many workers as before, all of the table of the answered parts. A receipt tells at most `MISSES` lost plans. Where no table
/// was ended each was truly lost; where one was, their number alone is bound.
///
/// # Example
///
/// ```rust
/// use kc_batch::{IndexedBatch, run_batch};
/// use kc_graph::{Graph, Update, decompose_owned};
/// use kc_shared::Parts;
/// use kc_workers::{NoGate, hire};
///
/// // The edges 0 1 and 2 3. Two workers enter a batch that makes a circle of them.
/// let graph = Graph::from_pairs(alloc, 4, &[(0, 1), (2, 3)])?;
/// let (parts, mut pass) = Parts::open(alloc, decompose_owned(alloc, graph)?, 0)?;
/// let mut workers = hire(alloc, &parts.words, &mut pass, 2)?;
/// let updates = [Update { add: true, u: 0, v: 2 }, Update { add: true, u: 1, v: 3 }];
/// let batch = IndexedBatch { first: 0, updates: &updates };
/// let (parts, done) = run_batch(rt, alloc, parts, &mut workers, batch, &NoGate);
/// let is_done = done.is_ok(); // true: there was memory
/// let core = parts.journal.core_numbers(); // 2, 2, 2, 2
/// ```
pub fn run_batch<G: Gate + Sync, R: Threads + Wait + Sync>(
    rt: &R,
    alloc: Global,
    mut parts: Parts,
    workers: &mut Vec<Worker>,
    batch: IndexedBatch<'_>,
    gate: &G,
) -> (Parts, Result<BatchDone, CutShort>)
    requires workers { (0 < vec_len workers.old) × (vec_len workers.old ≤ WORKERS) }
    requires table { All (λ w. w.table ≡ parts.words) workers.old.items }
    requires indices { batch.first + length batch.updates.now ≤ INDICES }
    requires within { All (λ u. u.v < parts.words.shape.fixed) batch.updates.now }
    requires numbers { length parts.journal.entries + length batch.updates.now ≤ LAST_NUMBER }
    ensures stands { Stands result.0.journal }
    ensures words { result.0.journal.levels.table ≡ result.0.words }
    ensures done { IfOk result.1 (λ done.
        IsBatchDone parts.journal result.0.journal batch.entry.first batch.entry.updates.now (vec_len workers.old) done) }
    ensures cut_short { IfErr result.1 (λ cut.
        IsCutShort parts.journal result.0.journal batch.entry.first batch.entry.updates.now (vec_len workers.old) cut) }
    ensures as_many { vec_len workers.new ≡ vec_len workers.old }
    ensures table { All (λ w. w.table ≡ result.0.words) workers.new.items }
    ensures told { OnOk result.1 (All (λ w. w ≡ record { table = result.0.words; log = result.0.journal.levels.log }) workers.new.items) }
{
    let count = workers.len();
    let (Ok(desks), Ok(shares)) = (
        Vec::with_capacity(alloc, count),
        Vec::with_capacity(alloc, count),
    ) else {
        let shares = Vec::new(alloc);
        let ended = Vec::new(alloc);
        return (parts, Err(CutShort { shares, ended }));
    };
    let mut desks = open_desks(alloc, workers, desks);
    tell_all(&mut parts, &mut desks);
    let (parts, desks, ended, worked) = run_desks(rt, alloc, parts, desks, batch, gate);
    let shares = close_desks(desks, workers, shares);
    match worked {
        Ok(()) => (parts, Ok(BatchDone { shares, ended })),
        Err(_) => (parts, Err(CutShort { shares, ended })),
    }
}
