//! A writer whose puts are made store by store, with a comparison between any two of them.
//!
//! `kc_order` has such a list behind its writer, which makes all stores of a put in one call. Here the list of one thread and the seat of
//! the table stand open, tied in the same way, so that the same stores are made in parts.
ghost use Rattle.std.specs.Prelude.{◌≡◌, ◌≢◌, ◌<◌, ◌≤◌, ◌+◌, ◌*◌, ◌++◌, ◌∷◌, ◌↔◌, ℕ, [], true, length, IfOk, IsTrue};
ghost use mathlib.Core.List.{IsPrefix};
ghost use Rattle.kc_lists.specs.Lists.{Distinct, member};
ghost use Rattle.kc_words.specs.NoteWord.{IsFitting, note_word};
ghost use Rattle.kc_table.specs.Legal.{Legal};
ghost use Rattle.kc_order.specs.Standing.{list_after};
ghost use Rattle.kc_order.specs.Writers.{AreOpeningWords, HasVersionsLeft, IsHighest, end_of, front_of, stores_of};

use kc_list::{PlainOrder, Write};
use kc_order::{Answer, Collect, NoMemory, first_collect, second_collect};
use kc_table::{Pass, Words, WriterSeat, open, store};
use kc_words::{LAST_VERSION, NoteWord, Shape};
use std::alloc::Global;
use std::marker::Model;
use std::process::Abort;

/// The seat of a table, and the list whose writes are stored there.
#[derive(Drop)]
pub(crate) struct SlowWriter {
    seat: WriterSeat,
    plain: PlainOrder,
}

impl Model for SlowWriter {
    ghost use Rattle.kc_table.specs.Log.{Seen};
    ghost use Rattle.kc_order.specs.Writers.{Tied};

    ghost Value = { Seen };

    ghost view = { λ w. w.seat };

    ghost invariant = { λ w. Tied w.seat w.plain };
}

impl SlowWriter {
    /// A table whose list is `order`, with no vertex, and its writer and a first pass.
    pub(crate) fn open(
        alloc: Global,
        shape: Shape,
        order: &[u32],
    ) -> Result<(Words, SlowWriter, Pass), NoMemory>
        requires distinct { Distinct order.now }
        requires within { (x : ℕ) → member x order.now ≡ true → x < shape.items }
        requires free { shape.fixed ≡ 0 }
        ensures shape { IfOk result (λ r. r.0.shape ≡ shape) }
        ensures tables { IfOk result (λ r. (r.1.table ≡ r.0) × (r.2.table ≡ r.0)) }
    {
        let plain = PlainOrder::open(alloc, shape, order)?;
        let words = opening_words(alloc, shape, &plain)?;
        let (words, seat, pass) = open(alloc, shape, words)?;
        Ok((words, SlowWriter { seat, plain }, pass))
    }

    /// Whether `x` is in the list.
    fn present(&self, x: u32) -> bool
        requires { x < self.now.table.shape.items }
        ensures { IsTrue result ↔ (member x (list_after self.now.table self.now.log) ≡ true) }
    {
        self.plain.present(x)
    }

    /// The greatest version of an item's or a group's word.
    fn highest(&self) -> u32
        ensures { IsHighest self.now.table self.now.log result }
    {
        self.plain.highest()
    }
}

/// The opening words of a table without vertices: no note, and the words of the list.
fn opening_words(alloc: Global, shape: Shape, plain: &PlainOrder) -> Result<Vec<u64>, NoMemory>
    requires items { plain.now.items ≡ shape.items }
    ensures { IfOk result (λ words. AreOpeningWords words.items plain.now.words [] shape.items) }
{
    let mut words = Vec::new(alloc);
    words.push(0)?;
    for word in 1..2 * shape.items + 2 {
        words.push(plain.word(word))?;
    }
    Ok(words)
}

/// After how many stores of a put a comparison makes its first collect, and after how many its second.
#[derive(Clone, Copy, Drop)]
pub(crate) struct Cut {
    pub(crate) first: usize,
    pub(crate) second: usize,
}

/// What a put stores, in order: all writes but the last, the note, and the last write.
fn with_note(alloc: Global, writes: &[Write], note: NoteWord) -> Result<Vec<Write>, NoMemory>
    requires some { 0 < length writes.now }
    requires fitting { IsFitting note }
    ensures { IfOk result (λ v. v.items ≡ (front_of writes.now ++ record { word = 0; value = note_word note } ∷ []) ++ end_of writes.now) }
{
    let (front, end) = writes.split_at(writes.len() - 1);
    let mut stores = front.to_vec(alloc)?;
    stores.push(Write::new(0, note.pack()))?;
    stores.extend_from_slice(end)?;
    Ok(stores)
}

/// Makes stores one by one.
fn store_each(words: &Words, seat: &mut WriterSeat, writes: &[Write])
    requires table { seat.old.table ≡ words.now }
    requires legal { Legal seat.old.table.shape seat.old.table.opening (seat.old.log ++ stores_of writes.now) }
    ensures { seat.new ≡ record { table = seat.old.table; log = seat.old.log ++ stores_of writes.now } }
{
    for write in writes {
        store(words, seat, write.word(), write.value());
    }
}

/// The rest of a comparison.
fn finish(words: &Words, pass: &mut Pass, begun: Result<Collect, Answer>) -> Answer
    requires table { pass.old.table ≡ words.now }
    requires of { IfOk begun (λ c. c.table ≡ words.now) }
    requires last { IfOk begun (λ c. IsPrefix c.group_y.prefix pass.old.log) }
    ensures { pass.new.table ≡ pass.old.table }
{
    match begun {
        Err(absent) => absent,
        Ok(collect) => second_collect(words, pass, collect),
    }
}

/// Makes the stores, and compares 63 with 0 where they are cut.
fn store_around(
    words: &Words,
    seat: &mut WriterSeat,
    pass: &mut Pass,
    stores: &[Write],
    cut: Cut,
) -> Answer
    requires table { (seat.old.table ≡ words.now) × (pass.old.table ≡ words.now) }
    requires items { 63 < words.now.shape.items }
    requires cut { (cut.first ≤ cut.second) × (cut.second ≤ length stores.now) }
    requires legal { Legal seat.old.table.shape seat.old.table.opening (seat.old.log ++ stores_of stores.now) }
    ensures seat { seat.new ≡ record { table = seat.old.table; log = seat.old.log ++ stores_of stores.now } }
    ensures pass { pass.new.table ≡ pass.old.table }
{
    let (before, rest) = stores.split_at(cut.first);
    let (between, after) = rest.split_at(cut.second - cut.first);
    store_each(words, seat, before);
    let begun = first_collect(words, pass, 63, 0);
    store_each(words, seat, between);
    let answer = finish(words, pass, begun);
    store_each(words, seat, after);
    answer
}

/// What a comparison answered, and how many stores the put around it made.
#[derive(Clone, Copy, Drop)]
pub(crate) struct Around {
    pub(crate) answer: Answer,
    pub(crate) stores: usize,
}

/// A put with a comparison in it, which is cut within the stores of the put.
fn put_in_parts<R: Abort + AllocGlobal>(
    rt: &R,
    words: &Words,
    writer: &mut SlowWriter,
    pass: &mut Pass,
    put: (u32, u32),
    cut: Cut,
) -> Around
    requires table { (writer.old.table ≡ words.now) × (pass.old.table ≡ words.now) }
    requires free { words.now.shape.fixed ≡ 0 }
    requires items { 63 < words.now.shape.items }
    requires x_in { put.0 < words.now.shape.items }
    requires p_in { member put.1 (list_after writer.old.table writer.old.log) ≡ true }
    requires differ { put.0 ≢ put.1 }
    requires versions { HasVersionsLeft writer.old.table writer.old.log }
    requires cut { cut.first ≤ cut.second }
    ensures writer { writer.new.table ≡ writer.old.table }
    ensures pass { pass.new.table ≡ pass.old.table }
{
    let SlowWriter { seat, plain } = writer;
    let (x, p) = put;
    plain.put_after(x, p);
    let Ok(stores) = with_note(rt.alloc(), plain.writes(), NoteWord::Put { x, p }) else {
        panic!(rt; "no memory");
    };
    assert!(rt; cut.second <= stores.len());
    let answer = store_around(words, seat, pass, stores.as_slice(), cut);
    let stores = stores.len();
    Around { answer, stores }
}

/// A put of one item right after another, where the list and the versions allow it, with a comparison of 63 with 0 in it.
pub(crate) fn put_around<R: Abort + AllocGlobal>(
    rt: &R,
    words: &Words,
    writer: &mut SlowWriter,
    pass: &mut Pass,
    put: (u32, u32),
    cut: Cut,
) -> Around
    requires table { (writer.old.table ≡ words.now) × (pass.old.table ≡ words.now) }
    requires shape { (words.now.shape.items ≡ 100) × (words.now.shape.fixed ≡ 0) }
    requires items { (put.0 < 100) × (put.1 < 100) }
    requires differ { put.0 ≢ put.1 }
    requires cut { cut.first ≤ cut.second }
    ensures writer { writer.new.table ≡ writer.old.table }
    ensures pass { pass.new.table ≡ pass.old.table }
{
    assert!(rt; writer.present(put.1) && writer.highest() <= LAST_VERSION - 3);
    put_in_parts(rt, words, writer, pass, put, cut)
}
