//! The state of a run while its batches are worked.
ghost use Rattle.std.specs.Prelude.{◌≡◌, ◌≤◌, ◌<◌, ◌+◌, ◌++◌, ◌∷◌, List, [], IfErr, IfOk, OnErr, OnOk, length, map};
ghost use Rattle.std.specs.FinSet as set;
ghost use Rattle.kc_graph.specs.Core.{AreCoreNumbers, greatest};
ghost use Rattle.kc_graph.specs.declared.update.Update.{Update};
ghost use Rattle.kc_batch_effects.specs.Batches.{added, graph_after_batch, kept, removed};
ghost use Rattle.kc_journal.specs.Journals.{Stands, ranked};
ghost use Rattle.kc_text.specs.Inputs.{IsBatch, parts_of};
ghost use Rattle.kc_text.specs.declared.limits.TheConstants.{MOST_UPDATES};
ghost use Rattle.kc_batch.specs.Batches.{IsCutShort, receipts_in};
ghost use Rattle.kc_run.specs.Courses.{HasWorked};
ghost use Rattle.kc_run.specs.Runs.{HasRun};

use crate::counting::outcomes_of;
use crate::ran::Ran;
use kc_batch::{BatchDone, CutShort, IndexedBatch, run_batch};
use kc_batch_effects::{Counts, count};
use kc_graph::{Lawful, NoMemory, SharedGraph, Update};
use kc_queue::WORKERS;
use kc_shared::Parts;
use kc_words::{INDICES, VERTICES};
use kc_workers::{Gate, Worker, hire};
use std::alloc::Global;
use std::marker::Model;
use std::sync::Wait;
use std::thread::Threads;

/// The parts of a run and its workers, whose marks are made once. By its type the workers are of the table of the parts.
///
/// Contracts see the journal and how many workers there are.
#[derive(Drop)]
pub struct Course {
    parts: Parts,
    workers: Vec<Worker>,
}

impl Model for Course {
    ghost use Rattle.std.specs.Coded.{codes};
    ghost use Rattle.kc_graph.specs.Rows.{code_of_graph};
    ghost use Rattle.kc_run.specs.Courses.{AreWorkersOf, Coursed};
    ghost use Rattle.std.specs.Prelude.{length};

    ghost Value = { Coursed };

    ghost coded = { Prim.hlevel (codes, code_of_graph) };

    ghost view = { λ c. record { journal = c.parts.journal; workers = length c.workers.items } };

    ghost invariant = { λ c. AreWorkersOf c.parts.words c.workers.items };
}

/// How many updates a run has entered, which is the index of the next one.
fn entered_by(parts: &Parts) -> u32
    requires few { length parts.now.journal.entries ≤ INDICES }
    ensures entered { result ≡ length parts.now.journal.entries }
    ensures stands { Stands parts.now.journal }
    ensures table { parts.now.journal.levels.table ≡ parts.now.words }
{
    parts.journal.recall_stands();
    parts.journal.entries().len() as u32
}

impl Course {
    /// The course of a new run from this state, with so many workers. Nothing was entered. `NoMemory` comes where there is none for the
    /// table, the stripes or the workers' marks; `lawful` is then dropped.
    pub fn open(alloc: Global, lawful: Lawful, workers: u32) -> Result<Course, NoMemory>
        requires few { lawful.graph.size ≤ VERTICES }
        requires some { 0 < workers }
        requires room { workers ≤ WORKERS }
        ensures state { IfOk result (λ course. ranked course.journal ≡ lawful) }
        ensures started { IfOk result (λ course. course.journal.started ≡ lawful.graph) }
        ensures entries { IfOk result (λ course. course.journal.entries ≡ []) }
        ensures workers { IfOk result (λ course. course.workers ≡ workers) }
        ensures worked { IfOk result (λ course. HasWorked [] [] [] course.journal) }
    {
        let (parts, mut pass) = Parts::open(alloc, lawful, 0)?;
        let workers = hire(alloc, &parts.words, &mut pass, workers)?;
        Ok(Course { parts, workers })
    }

    /// Lets the workers enter a batch, each update once, in whatever order they come to it, and counts what it did. The first update has
    /// the number of entries as index. The shares, and the tables that were ended since their versions were nearly spent, go to `ran`.
    ///
    /// `gate` is called before each try to enter an update. `CutShort` comes where memory ran out, in the batch or when it was entered
    /// whole and what it did could not be counted or kept. It has the receipts of what was entered, and the course stands with just these entries
    /// more. `ran` is then as it was. Whatever is answered, the course may go on.
    pub fn work<G: Gate + Sync, R: Threads + Wait + Sync>(
        self,
        rt: &R,
        alloc: Global,
        batch: &[Update],
        gate: &G,
        ran: &mut Ran,
    ) -> (Course, Result<Counts, CutShort>)
        requires batch { IsBatch self.journal.graph.size batch.now }
        requires few { length batch.now ≤ MOST_UPDATES }
        requires indices { length self.journal.entries + length batch.now ≤ INDICES }
        ensures stands { Stands result.0.journal }
        ensures started { result.0.journal.started ≡ self.journal.started }
        ensures workers { result.0.workers ≡ self.workers }
        ensures graph { OnOk result.1 (result.0.journal.graph ≡ graph_after_batch self.journal.graph (map parts_of batch.now)) }
        ensures added { IfOk result.1 (λ counts. counts.added ≡ added self.journal.graph.edges (map parts_of batch.now)) }
        ensures removed { IfOk result.1 (λ counts. counts.removed ≡ removed self.journal.graph.edges (map parts_of batch.now)) }
        ensures kept { IfOk result.1 (λ counts. counts.kept ≡ kept self.journal.graph.edges (map parts_of batch.now)) }
        ensures entries { OnOk result.1 (length result.0.journal.entries ≡ length self.journal.entries + length batch.now) }
        ensures shares { OnOk result.1 (length ran.new.shares.items ≡ length ran.old.shares.items + self.workers) }
        ensures worked { OnOk result.1 ((batches : List (List Update))
            → HasWorked batches ran.old.tables.items (receipts_in ran.old.shares.items) self.journal
            → HasWorked (batches ++ batch.now ∷ []) ran.new.tables.items (receipts_in ran.new.shares.items) result.0.journal) }
        ensures cut_short { IfErr result.1 (λ cut.
            IsCutShort self.journal result.0.journal (length self.journal.entries) batch.now self.workers cut) }
        ensures same { OnErr result.1 ((ran.new.shares.items ≡ ran.old.shares.items) × (ran.new.tables.items ≡ ran.old.tables.items)) }
    {
        let Course { parts, mut workers } = self;
        let first = entered_by(&parts);
        let indexed = IndexedBatch {
            first,
            updates: batch,
        };
        let (parts, worked) = run_batch(rt, alloc, parts, &mut workers, indexed, gate);
        let course = Course { parts, workers };
        let done = match worked {
            Ok(done) => done,
            Err(cut) => return (course, Err(cut)),
        };
        let Ok(outcomes) = outcomes_of(alloc, &done.shares) else {
            let BatchDone { shares, ended } = done;
            return (course, Err(CutShort { shares, ended }));
        };
        let counts = count(first, batch, &outcomes);
        match ran.take_over(done) {
            Ok(()) => (course, Ok(counts)),
            Err(cut) => (course, Err(cut)),
        }
    }

    /// How many updates were entered.
    pub fn entered(&self) -> usize
        ensures { result ≡ length self.now.journal.entries }
    {
        self.parts.journal.entries().len()
    }

    /// The graph after all batches.
    pub fn graph(&self) -> &SharedGraph
        ensures { result.now ≡ self.now.journal.graph }
    {
        self.parts.journal.graph()
    }

    /// How many edges it has.
    pub fn edges(&self) -> u64
        ensures { result ≡ set.len self.now.journal.graph.edges }
    {
        self.graph().edges()
    }

    /// The core number of each vertex, indexed by the vertex.
    pub fn core_numbers(&self) -> &[u32]
        ensures core { result.now ≡ self.now.journal.levels.core }
        ensures seidman { AreCoreNumbers self.now.journal.graph self.now.journal.levels.core }
    {
        self.parts.journal.core_numbers()
    }

    /// The greatest core number, 0 where there is no vertex.
    pub fn top(&self) -> u32
        ensures { result ≡ greatest self.now.journal.levels.core }
    {
        self.parts.journal.top()
    }

    /// Ends the run: the last table goes to `ran`, as a pass that is told the whole log. Where there is no memory for it the course is
    /// given back, and it and `ran` are as they were.
    pub fn end(self, ran: &mut Ran) -> Result<(), Course>
        ensures shares { ran.new.shares.items ≡ ran.old.shares.items }
        ensures run { OnOk result ((batches : List (List Update))
            → HasWorked batches ran.old.tables.items (receipts_in ran.old.shares.items) self.journal
            → HasRun self.journal.started batches ran.new) }
        ensures same { IfErr result (λ back. (back ≡ self) × (ran.new.tables.items ≡ ran.old.tables.items)) }
    {
        if ran.tables.reserve(1).is_err() {
            return Err(self);
        }
        let Course { parts, mut workers } = self;
        let Parts {
            words,
            mut journal,
            ..
        } = parts;
        let Some(Worker { mut pass, .. }) = workers.pop() else {
            unreachable!()
        };
        journal.recall_stands();
        journal.tell(&words, &mut pass);
        ran.tables.push_reserved(pass);
        Ok(())
    }
}
