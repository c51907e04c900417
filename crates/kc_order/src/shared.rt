//! A list that many threads ask and, under a lock, change.
//!
//! `SharedOrder` keeps the words outside of the lock and the writer behind it: comparisons take no lock, and a put or a take tells the
//! caller's pass the log while it holds the lock.
ghost use Rattle.std.specs.Prelude.{◌≡◌, ◌≢◌, ◌<◌, ◌≤◌, ◌+◌, OnOk, OnErr, IfErr};
ghost use mathlib.Core.List.{IsPrefix};
ghost use Rattle.kc_order.specs.Shared.{EndsWithPut, EndsWithTake, IsReady, IsRefusal};
ghost use Rattle.kc_order.specs.Standing.{Compares};
ghost use Rattle.kc_order.specs.Writers.{Puts, Takes};

use crate::answer::Answer;
use crate::collect::precedes;
use crate::fault::OrderFault;
use crate::writer::Writer;
use kc_table::{Name, Pass, Words};
use kc_words::LAST_VERSION;
use std::marker::PhantomData;
use std::sync::{Mutex, Wait};

/// The greatest version that leaves room for the stores of a put or a take.
const LAST_HIGHEST: u32 = LAST_VERSION - 3;

/// The value behind the lock: the writer of K's table, which has no vertices.
#[derive(Drop)]
struct LockedWriter<K: Name> {
    writer: Writer,
    of: PhantomData<K>,
    ghost of_table: { writer.table ≡ K.opened.table },
    ghost no_vertices: { K.opened.table.shape.fixed ≡ 0 },
}

impl<K: Name> LockedWriter<K> {
    /// Tells the pass the log, and says whether the item is in the list and versions are left.
    fn look(&mut self, words: &Words, pass: &mut Pass, item: u32) -> Result<(), OrderFault>
        requires table { (pass.old.table ≡ K.opened.table) × (words.now ≡ K.opened.table) }
        requires item { item < K.opened.table.shape.items }
        ensures writer { self.new.writer ≡ self.old.writer }
        ensures pass { pass.new ≡ record { table = self.new.writer.table; log = self.new.writer.log; loads = 0; splits = 0 } }
        ensures longer { IsPrefix pass.old.log pass.new.log }
        ensures ready { OnOk result (IsReady K.opened.table pass.new.log item) }
        ensures refused { IfErr result (λ fault. IsRefusal K.opened.table pass.new.log item fault) }
    {
        self.writer.tell(words, pass);
        if !self.writer.present(item) {
            return Err(OrderFault::Absent { item });
        }
        let highest = self.writer.highest();
        if highest > LAST_HIGHEST {
            return Err(OrderFault::Spent { highest });
        }
        Ok(())
    }

    /// One put and nothing else, or a refusal at which nothing is stored; and the pass is told the log.
    fn put_after(
        &mut self,
        words: &Words,
        pass: &mut Pass,
        x: u32,
        p: u32,
    ) -> Result<(), OrderFault>
        requires table { (pass.old.table ≡ K.opened.table) × (words.now ≡ K.opened.table) }
        requires items { (x < K.opened.table.shape.items) × (p < K.opened.table.shape.items) }
        requires differ { x ≢ p }
        ensures alone { OnOk result (Puts self.old.writer self.new.writer x p) }
        ensures same { OnErr result (self.new.writer ≡ self.old.writer) }
        ensures table { pass.new.table ≡ K.opened.table }
        ensures told { pass.new.log ≡ self.new.writer.log }
        ensures anew { (pass.new.loads ≡ 0) × (pass.new.splits ≡ 0) }
        ensures longer { IsPrefix pass.old.log pass.new.log }
        ensures put { OnOk result (EndsWithPut K.opened.table pass.old.log pass.new.log x p) }
        ensures refused { IfErr result (λ fault. IsRefusal K.opened.table pass.new.log p fault) }
    {
        self.look(words, pass, p)?;
        self.writer.put_after(words, x, p);
        self.writer.tell(words, pass);
        Ok(())
    }

    /// One take and nothing else, or a refusal at which nothing is stored; and the pass is told the log.
    fn take(&mut self, words: &Words, pass: &mut Pass, x: u32) -> Result<(), OrderFault>
        requires table { (pass.old.table ≡ K.opened.table) × (words.now ≡ K.opened.table) }
        requires item { x < K.opened.table.shape.items }
        ensures alone { OnOk result (Takes self.old.writer self.new.writer x) }
        ensures same { OnErr result (self.new.writer ≡ self.old.writer) }
        ensures table { pass.new.table ≡ K.opened.table }
        ensures told { pass.new.log ≡ self.new.writer.log }
        ensures anew { (pass.new.loads ≡ 0) × (pass.new.splits ≡ 0) }
        ensures longer { IsPrefix pass.old.log pass.new.log }
        ensures taken { OnOk result (EndsWithTake K.opened.table pass.old.log pass.new.log x) }
        ensures refused { IfErr result (λ fault. IsRefusal K.opened.table pass.new.log x fault) }
    {
        self.look(words, pass, x)?;
        self.writer.take(words, x);
        self.writer.tell(words, pass);
        Ok(())
    }
}

/// The words of K's table, and its writer under a lock. All items may come and go: the table has no vertices.
///
/// # Example
///
/// ```rust
/// use kc_order::{Answer, OrderFault, SharedOrder, Writer};
/// use kc_table::{Name, Pass, Words};
/// use kc_words::Shape;
///
/// // A function of the table's name, which is called with `Brand`.
/// fn compare<K: Name, R: Wait>(rt: &R, words: Words, writer: Writer, mut pass: Pass) -> Result<Answer, OrderFault>
///     requires table { (words ≡ K.opened.table) × (writer.table ≡ K.opened.table) × (pass.table ≡ K.opened.table) }
///     requires shape { (K.opened.table.shape.items ≡ 4) × (K.opened.table.shape.fixed ≡ 0) }
/// {
///     let shared = SharedOrder::<K>::new(words, writer);
///     shared.put_after(rt, &mut pass, 3, 0)?;
///     Ok(shared.precedes(&mut pass, 3, 1))
/// }
///
/// let shape = Shape { items: 4, fixed: 0, base: 0, version: 0 };
/// let (words, writer, pass) = Writer::open(alloc, shape, &[0, 1, 2], &[])?;
/// let answer = compare::<Brand, _>(rt, words, writer, pass)?; // Before: 3 was put right after 0
/// ```
#[derive(Drop)]
pub struct SharedOrder<K: Name> {
    words: Words,
    kept: Mutex<LockedWriter<K>>,
    ghost of_table: { words ≡ K.opened.table },
}

impl<K: Name> SharedOrder<K> {
    /// The list of K's table. It takes no memory.
    pub fn new(words: Words, writer: Writer) -> SharedOrder<K>
        requires table { (words ≡ K.opened.table) × (writer.table ≡ K.opened.table) }
        requires no_vertices { K.opened.table.shape.fixed ≡ 0 }
    {
        SharedOrder {
            words,
            kept: Mutex::new(LockedWriter {
                writer,
                of: PhantomData,
            }),
        }
    }

    /// The words, for loads and passes.
    pub fn words(&self) -> &Words
        ensures { result.now ≡ K.opened.table }
    {
        &self.words
    }

    /// Moves or adds `x` right after `p`, under the lock. The pass is told the log there, so each answer speaks of what it has seen now.
    /// It begins anew with no load and no split.
    ///
    /// `Absent` where `p` is out of the list, and `Spent` where it is in it and the versions of the words are spent.
    ///
    /// Calls of other threads may come between what the pass had seen and the put. The clauses do not tell whose they were, so they do not
    /// refuse a call that makes other lawful changes before its put or its refusal. The step that the lock guards is exact by its own
    /// clauses: one put and nothing else, or no store.
    pub fn put_after<R: Wait>(
        &self,
        rt: &R,
        pass: &mut Pass,
        x: u32,
        p: u32,
    ) -> Result<(), OrderFault>
        requires table { pass.old.table ≡ K.opened.table }
        requires items { (x < K.opened.table.shape.items) × (p < K.opened.table.shape.items) }
        requires differ { x ≢ p }
        ensures table { pass.new.table ≡ K.opened.table }
        ensures anew { (pass.new.loads ≡ 0) × (pass.new.splits ≡ 0) }
        ensures longer { IsPrefix pass.old.log pass.new.log }
        ensures put { OnOk result (EndsWithPut K.opened.table pass.old.log pass.new.log x p) }
        ensures refused { IfErr result (λ fault. IsRefusal K.opened.table pass.new.log p fault) }
    {
        self.kept.lock(rt).put_after(&self.words, pass, x, p)
    }

    /// Takes `x` out, under the lock, with the same refusals of `x`. What is said of other changes at `put_after` is so here too.
    pub fn take<R: Wait>(&self, rt: &R, pass: &mut Pass, x: u32) -> Result<(), OrderFault>
        requires table { pass.old.table ≡ K.opened.table }
        requires item { x < K.opened.table.shape.items }
        ensures table { pass.new.table ≡ K.opened.table }
        ensures anew { (pass.new.loads ≡ 0) × (pass.new.splits ≡ 0) }
        ensures longer { IsPrefix pass.old.log pass.new.log }
        ensures taken { OnOk result (EndsWithTake K.opened.table pass.old.log pass.new.log x) }
        ensures refused { IfErr result (λ fault. IsRefusal K.opened.table pass.new.log x fault) }
    {
        self.kept.lock(rt).take(&self.words, pass, x)
    }

    /// How two items stand, as `precedes` tells. It takes no lock.
    pub fn precedes(&self, pass: &mut Pass, x: u32, y: u32) -> Answer
        requires table { pass.old.table ≡ K.opened.table }
        requires items { (x < K.opened.table.shape.items) × (y < K.opened.table.shape.items) }
        ensures table { pass.new.table ≡ K.opened.table }
        ensures longer { IsPrefix pass.old.log pass.new.log }
        ensures answer { Compares pass.old pass.new x y result }
    {
        precedes(&self.words, pass, x, y)
    }
}
