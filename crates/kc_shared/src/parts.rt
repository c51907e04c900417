//! The state of a run while no worker runs.
ghost use Rattle.std.specs.Prelude.{◌≡◌, ◌<◌, ◌≤◌, All, IfErr, IfOk, OnErr, vec_len};
ghost use mathlib.Core.List.{IsPrefix};
ghost use Rattle.kc_journal.specs.Journals.{OpensRun, Renews, all_seen, fresh_pass, ranked};
ghost use Rattle.kc_shared.specs.States.{AreParts};

use crate::close_fault::CloseFault;
use crate::renewal::{fresh_passes, tell_all};
use kc_graph::{Lawful, NoMemory};
use kc_journal::Journal;
use kc_stripes::{Stripe, open_stripes};
use kc_table::{Pass, Words};
use kc_words::{LAST_VERSION, VERTICES};
use std::alloc::Global;
use std::marker::Model;
use std::mem;

/// The words of a table, its stripes and its journal.
///
/// By its type all three are of one table, with the same opening edges and opening edge stamps, and there are `STRIPES` stripes. These are
/// private: the lock of a vertex's stripe is found by its place, so nobody else may change their order.
///
/// # Example
///
/// ```rust
/// use kc_graph::{Graph, decompose_owned};
/// use kc_shared::Parts;
///
/// let graph = Graph::from_pairs(alloc, 4, &[(0, 1), (2, 3)])?;
/// let (mut parts, pass) = Parts::open(alloc, decompose_owned(alloc, graph)?, 0)?;
/// let mut passes = vec![in alloc; pass]?;
/// let last = parts.renew(alloc, &mut passes)?; // goes on in a fresh table; `last` is a pass of the old one
/// let core = parts.journal.core_numbers(); // 1, 1, 1, 1
/// let closed = parts.close(alloc, passes); // Ok, with the graph, its core numbers and their order
/// ```
#[derive(Drop)]
pub struct Parts {
    pub words: Words,
    pub(crate) stripes: Vec<Stripe>,
    pub journal: Journal,
}

impl Model for Parts {
    ghost use Rattle.std.specs.Coded.{codes};
    ghost use Rattle.kc_graph.specs.Rows.{code_of_graph};
    ghost use Rattle.kc_shared.specs.States.{AreParts, Parted};

    ghost Value = { Parted };

    ghost coded = { Prim.hlevel (codes, code_of_graph) };

    ghost view = { λ p. record { words = p.words; stripes = p.stripes.items; journal = p.journal } };

    ghost invariant = { λ p. AreParts (record { words = p.words; stripes = p.stripes.items; journal = p.journal }) };
}

impl Parts {
    /// The parts of a new run on a fresh table with this version, and a pass that has seen nothing of it. There are no entries, all stamps
    /// are 0, and start edges and opening edges are those of `lawful`. `NoMemory` comes where there is none for the table, the stamps or
    /// the stripes; `lawful` is then dropped.
    pub fn open(alloc: Global, lawful: Lawful, version: u32) -> Result<(Parts, Pass), NoMemory>
        requires few { lawful.graph.size ≤ VERTICES }
        requires version { version ≤ LAST_VERSION }
        ensures { IfOk result (λ r. OpensRun lawful version r.0.words r.0.journal r.1) }
    {
        let (words, mut journal, mut pass) = Journal::open(alloc, lawful, version)?;
        let stripes = open_stripes(
            alloc,
            &words,
            &mut pass,
            journal.graph(),
            journal.edge_stamps(),
        )?;
        journal.tell(&words, &mut pass);
        Ok((
            Parts {
                words,
                stripes,
                journal,
            },
            pass,
        ))
    }

    /// Goes on in a fresh table whose version is 0 and whose base is the number of entries: the same graph, core numbers, order, stamps and
    /// entries stand there, and what the table opened with is what they are now. Each pass is replaced by one of the new table. The answer
    /// is a pass of the old table that has seen its whole log, and so all that a replaced one had.
    ///
    /// All memory is taken before anything changes: at `NoMemory` the parts and the passes are as they were.
    pub fn renew(&mut self, alloc: Global, passes: &mut Vec<Pass>) -> Result<Pass, NoMemory>
        requires some { 0 < vec_len passes.old }
        requires table { All (λ p. p.table ≡ self.old.words) passes.old.items }
        ensures renewed { IfOk result (λ _. Renews self.old.journal self.new.journal 0 self.new.words (fresh_pass self.new.words)) }
        ensures as_many { IfOk result (λ _. vec_len passes.new ≡ vec_len passes.old) }
        ensures fresh { IfOk result (λ _. All (λ p. p ≡ fresh_pass self.new.words) passes.new.items) }
        ensures last { IfOk result (λ last. last ≡ all_seen self.old.journal) }
        ensures longer { IfOk result (λ last. All (λ p. IsPrefix p.log last.log) passes.old.items) }
        ensures same { OnErr result ((self.new ≡ self.old) × (passes.new ≡ passes.old)) }
    {
        self.journal.recall_stands();
        let (words, levels, mut fresh) = self.journal.fresh_table(alloc, 0)?;
        let stripes = open_stripes(
            alloc,
            &words,
            &mut fresh,
            self.journal.graph(),
            self.journal.edge_stamps(),
        )?;
        let renewed = fresh_passes(alloc, &words, &mut fresh, passes.len())?;
        let ended = mem::replace(passes, renewed);
        let last = tell_all(&mut self.journal, &self.words, ended);
        self.journal.go_on_in(levels);
        self.words = words;
        self.stripes = stripes;
        Ok(last)
    }

    /// Ends the run. The answer has the graph, the core numbers and the order of the journal; words, stripes and passes are let go. The
    /// error is want of memory, and gives all back untouched.
    pub fn close(self, alloc: Global, passes: Vec<Pass>) -> Result<Lawful, CloseFault>
        ensures state { IfOk result (λ lawful. lawful ≡ ranked self.journal) }
        ensures same { IfErr result (λ fault. (fault.parts ≡ self) × (fault.passes ≡ passes)) }
    {
        match self.journal.to_lawful(alloc) {
            Ok(lawful) => Ok(lawful),
            Err(NoMemory) => Err(CloseFault {
                parts: self,
                passes,
            }),
        }
    }
}
