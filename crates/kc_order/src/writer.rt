//! The one writer of a shared list.
//!
//! Each call keeps the log legal at each single store, and says what became of the list, of the versions, of the entries, of the vertices
//! that are put and not sealed, and of the vertices' words.
ghost use Rattle.std.specs.Prelude.{◌≡◌, ◌≢◌, ◌<◌, ◌≤◌, ◌+◌, ◌*◌, ◌++◌, ◌∷◌, ◌↔◌, ◌==◌, if◌then◌else◌, ℕ, [], true, length, slice_index};
ghost use Rattle.std.specs.Prelude.{IfOk, IsTrue, MatchOption};
ghost use mathlib.Core.List.{IsPrefix};
ghost use Rattle.kc_lists.specs.Lists.{Distinct, member, next_of, prev_of, without};
ghost use Rattle.kc_words.specs.NoteWord.{note_word};
ghost use Rattle.kc_words.specs.VertexWord.{vertex_of, vertex_word};
ghost use Rattle.kc_words.specs.declared.note.NoteWord.TheVariants.{Enter};
ghost use Rattle.kc_table.specs.Legal.{Legal, MayPut, Seals};
ghost use Rattle.kc_table.specs.TableState.{first_vertex, state_of};
ghost use Rattle.kc_order.specs.Standing.{StandsBefore, list_after};
ghost use Rattle.kc_order.specs.Runs.{IsRunBefore, MovesRun};
ghost use Rattle.kc_order.specs.Writers.{AreOpeningWords, HasRoom, HasVersionsLeft, IsHighest, LeavesBeside, Puts, Stores, StoresEntry, Takes};
ghost use Rattle.kc_order.specs.Writers.{entries_after, unsealed_after, vertex_word_after};

use crate::NoMemory;
use crate::storing::store_writes;
use kc_graph::Update;
use kc_list::PlainOrder;
use kc_table::{Pass, Words, WriterSeat, open, shape, store, tell};
use kc_words::{INDICES, NoteWord, Shape, VERTICES, VertexWord};
use std::alloc::Global;
use std::marker::Model;

/// The right to change the list, with the list as it is. Contracts see its table and the whole log.
#[derive(Drop)]
pub struct Writer {
    seat: WriterSeat,
    plain: PlainOrder,
}

impl Model for Writer {
    ghost use Rattle.kc_table.specs.Log.{Seen};
    ghost use Rattle.kc_order.specs.Writers.{Tied};

    ghost Value = { Seen };

    ghost view = { λ w. w.seat };

    ghost invariant = { λ w. Tied w.seat w.plain };
}

impl Writer {
    /// A table whose list is `order`, with a word for each vertex, and its writer and a first pass. The items below `fixed` are the
    /// vertices; all of them are in the list.
    pub fn open(
        alloc: Global,
        shape: Shape,
        order: &[u32],
        vertex: &[u64],
    ) -> Result<(Words, Writer, Pass), NoMemory>
        requires distinct { Distinct order.now }
        requires within { (x : ℕ) → member x order.now ≡ true → x < shape.items }
        requires vertices { (v : ℕ) → v < shape.fixed → member v order.now ≡ true }
        requires words { length vertex.now ≡ shape.fixed }
        requires stamps { (v : ℕ) → v < shape.fixed → (vertex_of (slice_index vertex.now v)).stamp ≤ shape.base }
        ensures shape { IfOk result (λ r. r.0.shape ≡ shape) }
        ensures list { IfOk result (λ r. list_after r.0 [] ≡ order.now) }
        ensures vertex { IfOk result (λ r. (v : ℕ) → v < shape.fixed → slice_index r.0.opening (first_vertex shape + v) ≡ slice_index vertex.now v) }
        ensures legal { IfOk result (λ r. Legal r.0.shape r.0.opening []) }
        ensures writer { IfOk result (λ r. r.1 ≡ record { table = r.0; log = [] }) }
        ensures pass { IfOk result (λ r. r.2 ≡ record { table = r.0; log = []; loads = 0; splits = 0 }) }
    {
        let plain = PlainOrder::open(alloc, shape, order)?;
        let words = opening_words(alloc, shape, &plain, vertex)?;
        let (words, seat, pass) = open(alloc, shape, words)?;
        Ok((words, Writer { seat, plain }, pass))
    }

    /// Moves or adds `x` right after `p`: all label changes first, then the note, and then the store at which the list changes. No word is
    /// stored more than twice.
    pub fn put_after(&mut self, words: &Words, x: u32, p: u32)
        requires table { self.old.table ≡ words.now }
        requires x_in { x < words.now.shape.items }
        requires p_in { member p (list_after self.old.table self.old.log) ≡ true }
        requires differ { x ≢ p }
        requires versions { HasVersionsLeft self.old.table self.old.log }
        requires section { x < words.now.shape.fixed → MayPut words.now.shape (state_of self.old.table.shape self.old.table.opening self.old.log) x }
        ensures { Puts self.old self.new x p }
    {
        let Writer { seat, plain } = self;
        plain.put_after(x, p);
        store_writes(words, seat, plain.writes(), NoteWord::Put { x, p });
    }

    /// Moves the items of a run right after `p`, in their order, by one put each: the last one first. So at each moment any two items stand
    /// as they did before or as they do at the end.
    pub fn move_after(&mut self, words: &Words, run: &[u32], p: u32)
        requires table { self.old.table ≡ words.now }
        requires run { IsRunBefore words.now.shape.fixed run.now p (list_after self.old.table self.old.log) }
        requires p_in { member p (list_after self.old.table self.old.log) ≡ true }
        requires versions { HasRoom self.old.table self.old.log (3 * length run.now) }
        ensures { MovesRun self.old self.new run.now p }
    {
        // also where the run has no member the log is legal
        let _seat = &self.seat;
        let mut i = run.len();
        while i > 0 {
            i -= 1;
            self.put_after(words, run[i], p);
        }
    }

    /// Takes `x` out: the note, and then the store at which the list changes. No other word is stored.
    pub fn take(&mut self, words: &Words, x: u32)
        requires table { self.old.table ≡ words.now }
        requires x_in { member x (list_after self.old.table self.old.log) ≡ true }
        requires free { words.now.shape.fixed ≤ x }
        requires versions { HasVersionsLeft self.old.table self.old.log }
        ensures { Takes self.old self.new x }
    {
        let Writer { seat, plain } = self;
        plain.take(x);
        store_writes(words, seat, plain.writes(), NoteWord::Take { x });
    }

    /// Enters an update: its index, and then the note that opens its section. Nothing is left open in the section before.
    pub fn note_enter(&mut self, words: &Words, index: u32, update: Update)
        requires table { self.old.table ≡ words.now }
        requires index { index < INDICES }
        requires ends { (update.u < words.now.shape.items) × (update.v < words.now.shape.items) }
        requires fits { (update.u < VERTICES) × (update.v < VERTICES) }
        requires closed { (state_of self.old.table.shape self.old.table.opening self.old.log).unsealed ≡ [] }
        ensures stored { StoresEntry self.old self.new index (note_word (Enter update.add update.u update.v)) }
        ensures leaves { LeavesBeside self.new (entries_after self.old ++ record { index = index; add = update.add; u = update.u; v = update.v } ∷ []) []
            (vertex_word_after self.old) }
    {
        let note = NoteWord::Enter {
            add: update.add,
            u: update.u,
            v: update.v,
        };
        let index = u64::from(index);
        let note = note.pack();
        store(words, &mut self.seat, 0, index);
        store(words, &mut self.seat, 0, note);
    }

    /// Stores the word of a vertex: its core number, and as its stamp the number of the last entry.
    pub fn store_vertex(&mut self, words: &Words, v: u32, stamp: u32, core: u32)
        requires table { self.old.table ≡ words.now }
        requires vertex { v < words.now.shape.fixed }
        requires section { Seals words.now.shape
            (state_of self.old.table.shape self.old.table.opening self.old.log) v (vertex_word (record { stamp = stamp; core = core })) }
        ensures stored { Stores self.old self.new (first_vertex words.now.shape + v) (vertex_word (record { stamp = stamp; core = core })) }
        ensures leaves { LeavesBeside self.new (entries_after self.old) (without v (unsealed_after self.old))
            (λ w. if w == v then vertex_word (record { stamp = stamp; core = core }) else vertex_word_after self.old w) }
    {
        let word = shape(words).vertex(v);
        store(
            words,
            &mut self.seat,
            word,
            VertexWord { stamp, core }.pack(),
        );
    }

    /// Whether `x` stands before `y`.
    pub fn precedes(&self, x: u32, y: u32) -> bool
        requires x_in { member x (list_after self.now.table self.now.log) ≡ true }
        requires y_in { member y (list_after self.now.table self.now.log) ≡ true }
        requires differ { x ≢ y }
        ensures { IsTrue result ↔ StandsBefore x y (list_after self.now.table self.now.log) }
    {
        self.plain.precedes(x, y)
    }

    /// Whether `x` is in the list.
    pub fn present(&self, x: u32) -> bool
        requires { x < self.now.table.shape.items }
        ensures { IsTrue result ↔ (member x (list_after self.now.table self.now.log) ≡ true) }
    {
        self.plain.present(x)
    }

    /// The item right before `x`, or none where `x` is the first.
    pub fn before(&self, x: u32) -> Option<u32>
        requires { member x (list_after self.now.table self.now.log) ≡ true }
        ensures { MatchOption result
            (prev_of self.now.table.shape.items x (list_after self.now.table self.now.log) ≡ self.now.table.shape.items)
            (λ y. (y ≡ prev_of self.now.table.shape.items x (list_after self.now.table self.now.log))
            × (member y (list_after self.now.table self.now.log) ≡ true)) }
    {
        self.plain.before(x)
    }

    /// The item right after `x`, or none where `x` is the last.
    pub fn after(&self, x: u32) -> Option<u32>
        requires { member x (list_after self.now.table self.now.log) ≡ true }
        ensures { MatchOption result
            (next_of self.now.table.shape.items x (list_after self.now.table self.now.log) ≡ self.now.table.shape.items)
            (λ y. (y ≡ next_of self.now.table.shape.items x (list_after self.now.table self.now.log))
            × (member y (list_after self.now.table self.now.log) ≡ true)) }
    {
        self.plain.after(x)
    }

    /// The greatest version of an item's or a group's word.
    pub fn highest(&self) -> u32
        ensures { IsHighest self.now.table self.now.log result }
    {
        self.plain.highest()
    }

    /// Tells a pass the whole log, of which it had seen a prefix.
    pub fn tell(&mut self, words: &Words, pass: &mut Pass)
        requires table { (pass.old.table ≡ words.now) × (self.old.table ≡ words.now) }
        ensures writer { self.new ≡ self.old }
        ensures pass { pass.new ≡ record { table = self.old.table; log = self.old.log; loads = 0; splits = 0 } }
        ensures longer { IsPrefix pass.old.log self.old.log }
        ensures legal { Legal self.old.table.shape self.old.table.opening self.old.log }
    {
        tell(words, &mut self.seat, pass);
    }
}

/// The opening words of a table: no note, the words of the list, and those of the vertices.
fn opening_words(
    alloc: Global,
    shape: Shape,
    plain: &PlainOrder,
    vertex: &[u64],
) -> Result<Vec<u64>, NoMemory>
    requires items { plain.now.items ≡ shape.items }
    ensures { IfOk result (λ words. AreOpeningWords words.items plain.now.words vertex.now shape.items) }
{
    let mut words = Vec::with_capacity(alloc, shape.words() as usize)?;
    words.push(0)?;
    for word in 1..2 * shape.items + 2 {
        words.push(plain.word(word))?;
    }
    words.extend_from_slice(vertex)?;
    Ok(words)
}
