//! An acyclic graph that many threads ask and, under a lock, add arcs to.
//!
//! `Dag` keeps the words outside of the lock and the arcs behind it: comparisons take no lock, and the calls that do tell the caller's
//! pass the log while they hold it.
ghost use Rattle.std.specs.Prelude.{◌≡◌, ◌<◌, List, IfOk, IfErr, MatchResult};
ghost use mathlib.Core.List.{IsPrefix};
ghost use Rattle.kc_table.specs.declared.view.Event.{Event};
ghost use Rattle.kc_order.specs.Standing.{Compares};
ghost use Rattle.kc_topo.specs.Arcs.{arcs_after, has_arc};
ghost use Rattle.kc_topo.specs.Dags.{IsAdded, IsAddedSince, IsDagAlong, IsRefused, TellsOfDag};

use crate::added::Added;
use crate::arcs::Arcs;
use crate::fault::DagFault;
use kc_order::{Answer, precedes};
use kc_table::{Name, Pass, Words};
use std::alloc::Global;
use std::marker::PhantomData;
use std::sync::{Mutex, Wait};

/// The value behind the lock: the arcs of K's table.
#[derive(Drop)]
struct LockedArcs<K: Name> {
    arcs: Arcs,
    of: PhantomData<K>,
    ghost of_table: { arcs.table ≡ K.opened.table },
}

impl<K: Name> LockedArcs<K> {
    /// One arc and nothing else, or no store; and the pass is told the log.
    fn add(
        &mut self,
        alloc: Global,
        words: &Words,
        pass: &mut Pass,
        a: u32,
        b: u32,
    ) -> Result<Added, DagFault>
        requires table { (pass.old.table ≡ K.opened.table) × (words.now ≡ K.opened.table) }
        requires vertices { (a < K.opened.table.shape.items) × (b < K.opened.table.shape.items) }
        ensures alone { MatchResult result (IsAdded self.old.arcs self.new.arcs a b) (λ fault. self.new.arcs ≡ self.old.arcs) }
        ensures told { pass.new.log ≡ self.new.arcs.log }
        ensures table { pass.new.table ≡ K.opened.table }
        ensures anew { (pass.new.loads ≡ 0) × (pass.new.splits ≡ 0) }
        ensures longer { IsPrefix pass.old.log pass.new.log }
        ensures dag { IsDagAlong K.opened.table pass.new.log }
        ensures added { IfOk result (IsAddedSince K.opened.table pass.old.log pass.new.log a b) }
        ensures refused { IfErr result (IsRefused (record { table = K.opened.table; log = pass.new.log }) a b) }
    {
        self.arcs.add(alloc, words, pass, a, b)
    }

    /// Whether the arc stands; the pass is told the log, and nothing is stored.
    fn arc(&mut self, words: &Words, pass: &mut Pass, a: u32, b: u32) -> bool
        requires table { (pass.old.table ≡ K.opened.table) × (words.now ≡ K.opened.table) }
        requires vertices { (a < K.opened.table.shape.items) × (b < K.opened.table.shape.items) }
        ensures same { self.new.arcs ≡ self.old.arcs }
        ensures told { pass.new.log ≡ self.new.arcs.log }
        ensures table { pass.new.table ≡ K.opened.table }
        ensures anew { (pass.new.loads ≡ 0) × (pass.new.splits ≡ 0) }
        ensures longer { IsPrefix pass.old.log pass.new.log }
        ensures dag { IsDagAlong K.opened.table pass.new.log }
        ensures arc { result ≡ has_arc (arcs_after K.opened.table pass.new.log) a b }
    {
        self.arcs.tell(words, pass);
        self.arcs.has(a, b)
    }
}

/// The words of K's table, and its arcs under a lock.
///
/// # Example
///
/// ```rust
/// use kc_order::Answer;
/// use kc_table::{Name, Pass, Words};
/// use kc_topo::{Arcs, Dag, DagFault};
///
/// // A function of the table's name, which is called with `Brand`.
/// fn stand<K: Name, R: Wait + AllocGlobal>(rt: &R, words: Words, arcs: Arcs, mut pass: Pass) -> Result<Answer, DagFault>
///     requires table { (words ≡ K.opened.table) × (arcs.table ≡ K.opened.table) × (pass.table ≡ K.opened.table) }
///     requires vertices { K.opened.table.shape.items ≡ 3 }
/// {
///     let dag = Dag::<K>::new(words, arcs);
///     dag.add(rt, rt.alloc(), &mut pass, 2, 0)?;
///     Ok(dag.precedes(&mut pass, 2, 0))
/// }
///
/// let (words, arcs, pass) = Arcs::open(alloc, 3)?;
/// let answer = stand::<Brand, _>(rt, words, arcs, pass)?; // Before: an arc leads from 2 to 0
/// ```
#[derive(Drop)]
pub struct Dag<K: Name> {
    words: Words,
    kept: Mutex<LockedArcs<K>>,
    ghost of_table: { words ≡ K.opened.table },
}

impl<K: Name> Dag<K> {
    /// The graph of K's table. It takes no memory.
    pub fn new(words: Words, arcs: Arcs) -> Dag<K>
        requires { (words ≡ K.opened.table) × (arcs.table ≡ K.opened.table) }
    {
        Dag {
            words,
            kept: Mutex::new(LockedArcs {
                arcs,
                of: PhantomData,
            }),
        }
    }

    /// The words, for loads and passes.
    pub fn words(&self) -> &Words
        ensures { result.now ≡ K.opened.table }
    {
        &self.words
    }

    /// Adds the arc from `a` to `b` under the lock, as `Arcs::add` does. The pass is told the log there, so each answer speaks of what it
    /// has seen now, after each prefix of which the list is topological for the arcs. It begins anew with no load and no split.
    ///
    /// `New` comes only where the pass had not seen the arc before, and its entry is the last that it has seen now.
    ///
    /// Calls of other threads may come between what the pass had seen and this one. The clauses do not tell whose they were, so they do not
    /// refuse a call that enters other lawful arcs first, also before a refusal, or that enters the arc and answers `There`. The step that
    /// the lock guards is exact by its own clauses: one arc and nothing else, or no store.
    pub fn add<R: Wait>(
        &self,
        rt: &R,
        alloc: Global,
        pass: &mut Pass,
        a: u32,
        b: u32,
    ) -> Result<Added, DagFault>
        requires table { pass.old.table ≡ K.opened.table }
        requires vertices { (a < K.opened.table.shape.items) × (b < K.opened.table.shape.items) }
        ensures table { pass.new.table ≡ K.opened.table }
        ensures anew { (pass.new.loads ≡ 0) × (pass.new.splits ≡ 0) }
        ensures longer { IsPrefix pass.old.log pass.new.log }
        ensures dag { IsDagAlong K.opened.table pass.new.log }
        ensures added { IfOk result (IsAddedSince K.opened.table pass.old.log pass.new.log a b) }
        ensures refused { IfErr result (IsRefused (record { table = K.opened.table; log = pass.new.log }) a b) }
    {
        self.kept.lock(rt).add(alloc, &self.words, pass, a, b)
    }

    /// How two vertices stand, as `kc_order::precedes` tells. It takes no lock and no memory.
    ///
    /// A sure answer is how the two stood after one prefix of the log, between what the pass had seen and what it has seen now. That the
    /// list was topological then for each arc entered until then, the pass does not know yet. It learns it from a later `add` or `arc`,
    /// whose `dag` speaks of each prefix of the log that it tells. With such a log `tells` gives it for this answer. A pass that never
    /// takes the lock learns it of no answer.
    pub fn precedes(&self, pass: &mut Pass, x: u32, y: u32) -> Answer
        requires table { pass.old.table ≡ K.opened.table }
        requires vertices { (x < K.opened.table.shape.items) × (y < K.opened.table.shape.items) }
        ensures table { pass.new.table ≡ K.opened.table }
        ensures longer { IsPrefix pass.old.log pass.new.log }
        ensures answer { Compares pass.old pass.new x y result }
        ensures tells { (log : List Event) → IsPrefix pass.new.log log → IsDagAlong K.opened.table log
            → TellsOfDag K.opened.table pass.old.log pass.new.log x y result }
    {
        precedes(&self.words, pass, x, y)
    }

    /// Whether the arc from `a` to `b` stands, under the lock, where the pass is told the log. What is said of other changes at `add` is
    /// so here too.
    pub fn arc<R: Wait>(&self, rt: &R, pass: &mut Pass, a: u32, b: u32) -> bool
        requires table { pass.old.table ≡ K.opened.table }
        requires vertices { (a < K.opened.table.shape.items) × (b < K.opened.table.shape.items) }
        ensures table { pass.new.table ≡ K.opened.table }
        ensures anew { (pass.new.loads ≡ 0) × (pass.new.splits ≡ 0) }
        ensures longer { IsPrefix pass.old.log pass.new.log }
        ensures dag { IsDagAlong K.opened.table pass.new.log }
        ensures arc { result ≡ has_arc (arcs_after K.opened.table pass.new.log) a b }
    {
        self.kept.lock(rt).arc(&self.words, pass, a, b)
    }
}
