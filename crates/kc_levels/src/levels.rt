//! Levels: the vertices in order between the heads of their levels, and the calls that change them.
//!
//! Each call names the stores that the log grows by, and what order, levels, stamps and the vertices moved and not yet sealed are then
//! (`specs/Levels.antt`). A move is one put, a seal one store of a vertex word; none of them takes memory, and none looks at more than
//! a few items beside the one that it moves. Only `open` takes memory.
ghost use Rattle.std.specs.Prelude.{◌≡◌, ◌≢◌, ◌<◌, ◌≤◌, ◌+◌, ◌-◌, ◌*◌, ◌++◌, ℕ, [], ◌∷◌, true, false, length, slice_index, slice_set, ◌↔◌, IfOk};
ghost use Rattle.std.specs.Prelude.{IsTrue, MatchBool, MatchOption, max};
ghost use mathlib.Core.List.{IsPrefix};
ghost use Rattle.kc_lists.specs.Lists.{head_or, member, next_of, prev_of, without};
ghost use Rattle.kc_words.specs.VertexWord.{vertex_word};
ghost use Rattle.kc_graph.specs.Certificate.{Enumerates};
ghost use Rattle.kc_graph.specs.Plans.{put_between};
ghost use Rattle.kc_cert.specs.Conditions.{NeverFalls};
ghost use Rattle.kc_table.specs.Legal.{Legal};
ghost use Rattle.kc_order.specs.Standing.{StandsBefore, list_after};
ghost use Rattle.kc_order.specs.Writers.{HasVersionsLeft, IsHighest};
ghost use Rattle.kc_levels.specs.Heads.{behind, no_part, parts_from, put, under, up_to, vertices_of, with_heads};
ghost use Rattle.kc_levels.specs.Levels.{AreLevels, IsHeaded, IsTop, MayMove, MovesTo, OpensLevels, OpensSection, SealsOne, number_of, seen};
ghost use Rattle.kc_levels.specs.Levels.{size_of, stamp_at, unsealed_in};

use crate::NoMemory;
use kc_graph::{Update, greatest};
use kc_order::Writer;
use kc_table::{Pass, Words};
use kc_words::{INDICES, LAST_VERSION, Shape, VERTICES, VertexWord};
use std::alloc::Global;
use std::marker::Model;

/// The last number that a section may have.
pub const LAST_NUMBER: u32 = 4_294_967_294;

/// One list that holds vertices and heads of levels, and the right to change it.
#[derive(Drop)]
pub struct Levels {
    writer: Writer,
    size: u32,
    core: Vec<u32>,
    stamps: Vec<u32>,
    number: u32,
    is_open: bool,
    top: u32,
}

impl Model for Levels {
    ghost use Rattle.kc_levels.specs.Levels.{IsTop, Levelled, Tallied, levelled};

    ghost Value = { Levelled };

    ghost view = { λ s. levelled s.writer s.core.items s.is_open };

    ghost invariant = { λ s. Tallied (levelled s.writer s.core.items s.is_open) s.stamps.items s.number s.size × IsTop s.core.items s.top };
}

impl Levels {
    /// A fresh table for vertices in an order along which their levels never fall. `core` and `stamps` have the level and the stamp of
    /// each vertex, indexed by the vertex; `base` is the number of entries before the table.
    pub fn open(
        alloc: Global,
        order: &[u32],
        core: &[u32],
        stamps: &[u32],
        base: u32,
        version: u32,
    ) -> Result<(Words, Levels, Pass), NoMemory>
        requires few { length core.now ≤ VERTICES }
        requires version { version ≤ LAST_VERSION }
        requires order { Enumerates (length core.now) order.now }
        requires rising { NeverFalls core.now order.now }
        requires low { (v : ℕ) → v < length core.now → slice_index core.now v < length core.now }
        requires one_stamp_each { length stamps.now ≡ length core.now }
        requires stamps { (v : ℕ) → v < length core.now → slice_index stamps.now v ≤ base }
        ensures { IfOk result (λ r. OpensLevels order.now core.now stamps.now base version r.0 r.1 r.2) }
    {
        let size = core.len() as u32;
        let list = list_with_heads(alloc, size, order, core)?;
        let vertex = vertex_words(alloc, size, core, stamps)?;
        let shape = Shape {
            items: 2 * size + 1,
            fixed: size,
            base,
            version,
        };
        let (words, writer, pass) = Writer::open(alloc, shape, &list, &vertex)?;
        // What only the opening takes goes before the copies, so that both never take memory together.
        drop(list);
        drop(vertex);
        let levels = Vec::from_slice(alloc, core)?;
        let kept = Vec::from_slice(alloc, stamps)?;
        let levels = Levels {
            writer,
            size,
            core: levels,
            stamps: kept,
            number: base,
            is_open: false,
            top: greatest(core),
        };
        Ok((words, levels, pass))
    }

    /// Moves `v` to the front of a level.
    pub fn to_front(&mut self, words: &Words, v: u32, level: u32)
        requires table { self.old.table ≡ words.now }
        requires may { MayMove self.old v }
        requires level { level < size_of self.old }
        requires versions { HasVersionsLeft self.old.table self.old.log }
        ensures { MovesTo self.old self.new v (size_of self.old + level)
            (put_between (under self.old.core level) (v ∷ []) self.old.order) (slice_set self.old.core v level) }
    {
        self.writer.put_after(words, v, self.size + level);
        self.core[v as usize] = level;
        self.top = top_after(&self.writer, &self.core, self.top, v);
    }

    /// Moves `v` right after another vertex, to that one's level.
    pub fn shift_after(&mut self, words: &Words, v: u32, w: u32)
        requires table { self.old.table ≡ words.now }
        requires may { MayMove self.old v }
        requires other { w < size_of self.old }
        requires differ { v ≢ w }
        requires versions { HasVersionsLeft self.old.table self.old.log }
        ensures { MovesTo self.old self.new v w (put v w self.old.order) (slice_set self.old.core v (slice_index self.old.core w)) }
    {
        self.writer.put_after(words, v, w);
        self.core[v as usize] = self.core[w as usize];
        self.top = top_after(&self.writer, &self.core, self.top, v);
    }

    /// Moves `v` to the back of a level: after the last item before the next head that is not `v` itself.
    pub fn to_back(&mut self, words: &Words, v: u32, level: u32)
        requires table { self.old.table ≡ words.now }
        requires may { MayMove self.old v }
        requires level { level < size_of self.old }
        requires versions { HasVersionsLeft self.old.table self.old.log }
        ensures { MovesTo self.old self.new v
            (prev_of (2 * size_of self.old + 1) (size_of self.old + (level + 1)) (without v (list_after self.old.table self.old.log)))
            (put_between (up_to self.old.core level) (v ∷ []) self.old.order) (slice_set self.old.core v level) }
    {
        let p = other_before(&self.writer, self.size + level + 1, v);
        self.writer.put_after(words, v, p);
        self.core[v as usize] = level;
        self.top = top_after(&self.writer, &self.core, self.top, v);
    }

    /// Opens the section of an update by its entry. Each vertex may be moved in it.
    pub fn open_section(&mut self, words: &Words, index: u32, update: Update)
        requires table { self.old.table ≡ words.now }
        requires closed { self.old.open_ ≡ false }
        requires index { index < INDICES }
        requires ends { (update.u < size_of self.old) × (update.v < size_of self.old) }
        requires numbers { number_of self.old < LAST_NUMBER }
        ensures { OpensSection self.old self.new index update }
    {
        self.writer.note_enter(words, index, update);
        self.number += 1;
        self.is_open = true;
    }

    /// Ends the section, in which each vertex that was moved is sealed.
    pub fn end_section(&mut self)
        requires open_ { self.old.open_ ≡ true }
        requires sealed { unsealed_in self.old ≡ [] }
        ensures is { self.new ≡ record self.old { open_ = false } }
        ensures are { AreLevels self.new }
    {
        self.is_open = false;
    }

    /// The number of the open section, or of the last one: the entries before the table and those of its log.
    pub fn number(&self) -> u32
        ensures { result ≡ number_of self.now }
    {
        self.number
    }

    /// The level where a vertex stands.
    pub fn level_of(&self, v: u32) -> u32
        requires { v < size_of self.now }
        ensures { result ≡ slice_index self.now.core v }
    {
        self.core[v as usize]
    }

    /// The greatest level of a vertex, 0 where there is none. It is kept, not looked for.
    pub fn top(&self) -> u32
        ensures { IsTop self.now.core result }
    {
        self.top
    }

    /// The number of the section that last moved a vertex, or its opening stamp.
    pub fn stamp(&self, v: u32) -> u32
        requires { v < size_of self.now }
        ensures { result ≡ stamp_at self.now v }
    {
        self.stamps[v as usize]
    }

    /// The level where each vertex stands, indexed by the vertex.
    pub fn core(&self) -> &[u32]
        ensures { result.now ≡ self.now.core }
    {
        &self.core
    }

    /// The stamp of each vertex, indexed by the vertex.
    pub fn stamps(&self) -> &[u32]
        ensures one_each { length result.now ≡ size_of self.now }
        ensures each { (v : ℕ) → v < size_of self.now → slice_index result.now v ≡ stamp_at self.now v }
    {
        &self.stamps
    }

    /// Whether `x` stands before `y`.
    pub fn precedes(&self, x: u32, y: u32) -> bool
        requires vertices { (x < size_of self.now) × (y < size_of self.now) }
        requires differ { x ≢ y }
        ensures { IsTrue result ↔ StandsBefore x y self.now.order }
    {
        self.writer.precedes(x, y)
    }

    /// The first vertex, or none where there is none.
    pub fn first(&self) -> Option<u32>
        ensures { MatchOption result (self.now.order ≡ []) (λ v. (v ≡ head_or (size_of self.now) self.now.order) × (v < size_of self.now)) }
    {
        vertex_behind(&self.writer, self.size, self.size)
    }

    /// The vertex right after `v` in the order, or none where `v` is the last.
    pub fn next(&self, v: u32) -> Option<u32>
        requires { v < size_of self.now }
        ensures { MatchOption result
            (next_of (size_of self.now) v self.now.order ≡ size_of self.now)
            (λ w. (w ≡ next_of (size_of self.now) v self.now.order) × (w < size_of self.now)) }
    {
        vertex_behind(&self.writer, self.size, v)
    }

    /// The greatest version of an item's or a group's word.
    pub fn highest(&self) -> u32
        ensures { IsHighest self.now.table self.now.log result }
    {
        self.writer.highest()
    }

    /// Tells a pass the whole log, of which it had seen a prefix.
    pub fn tell(&mut self, words: &Words, pass: &mut Pass)
        requires table { (pass.old.table ≡ words.now) × (self.old.table ≡ words.now) }
        ensures levels { self.new ≡ self.old }
        ensures pass { pass.new ≡ record { table = self.old.table; log = self.old.log; loads = 0; splits = 0 } }
        ensures longer { IsPrefix pass.old.log self.old.log }
        ensures are { AreLevels self.new }
    {
        self.writer.tell(words, pass);
    }

    /// Stores the word of a vertex that was moved: the section's number and the level where the vertex stands.
    pub fn seal(&mut self, words: &Words, v: u32)
        requires table { self.old.table ≡ words.now }
        requires open_ { self.old.open_ ≡ true }
        requires moved { member v (unsealed_in self.old) ≡ true }
        ensures { SealsOne self.old self.new v }
    {
        self.writer
            .store_vertex(words, v, self.number, self.core[v as usize]);
        self.stamps[v as usize] = self.number;
    }
}

/// The first item below a number behind `x`; the others are passed.
fn vertex_behind(writer: &Writer, size: u32, x: u32) -> Option<u32>
    requires legal { Legal writer.now.table.shape writer.now.table.opening writer.now.log }
    requires x_in { member x (list_after writer.now.table writer.now.log) ≡ true }
    ensures { MatchOption result
        (vertices_of size (behind x (list_after writer.now.table writer.now.log)) ≡ [])
        (λ y. (y ≡ head_or size (vertices_of size (behind x (list_after writer.now.table writer.now.log)))) × (y < size)) }
{
    let mut at = x;
    while let Some(y) = writer.after(at) {
        if y < size {
            return Some(y);
        }
        at = y;
    }
    None
}

/// What stands right before `x` once `v` is out.
fn other_before(writer: &Writer, x: u32, v: u32) -> u32
    requires legal { Legal writer.now.table.shape writer.now.table.opening writer.now.log }
    requires x_in { member x (list_after writer.now.table writer.now.log) ≡ true }
    requires v_in { member v (list_after writer.now.table writer.now.log) ≡ true }
    requires differ { x ≢ v }
    requires later { prev_of writer.now.table.shape.items x (without v (list_after writer.now.table writer.now.log)) ≢ writer.now.table.shape.items }
    ensures { result ≡ prev_of writer.now.table.shape.items x (without v (list_after writer.now.table writer.now.log)) }
{
    let p = writer.before(x).unwrap_or(v);
    if p != v {
        return p;
    }
    writer.before(v).unwrap_or(0)
}

/// The list with heads.
fn list_with_heads(
    alloc: Global,
    size: u32,
    order: &[u32],
    core: &[u32],
) -> Result<Vec<u32>, NoMemory>
    requires size { size ≡ length core.now }
    requires few { size ≤ VERTICES }
    requires within { (y : ℕ) → member y order.now ≡ true → y < size }
    requires rising { NeverFalls core.now order.now }
    requires low { (v : ℕ) → v < size → slice_index core.now v < size }
    ensures { IfOk result (λ list. list.items ≡ with_heads size order.now core.now) }
{
    let mut list = Vec::with_capacity(alloc, 2 * size as usize + 1)?;
    let mut next = 0;
    for v in order {
        let level = core[*v as usize];
        push_heads(&mut list, size, next, level + 1)?;
        list.push(*v)?;
        next = level + 1;
    }
    push_heads(&mut list, size, next, size + 1)?;
    Ok(list)
}

/// Pushes the heads from one level up to another.
fn push_heads(list: &mut Vec<u32>, size: u32, from: u32, end: u32) -> Result<(), NoMemory>
    requires range { from ≤ end }
    requires few { (size ≤ VERTICES) × (end ≤ size + 1) }
    ensures { IfOk result (λ _. list.new.items ≡ list.old.items ++ parts_from size no_part from (end - from)) }
{
    for level in from..end {
        list.push(size + level)?;
    }
    Ok(())
}

/// The opening words of the vertices.
fn vertex_words(
    alloc: Global,
    size: u32,
    core: &[u32],
    stamps: &[u32],
) -> Result<Vec<u64>, NoMemory>
    requires size { (size ≡ length core.now) × (size ≡ length stamps.now) }
    ensures length { IfOk result (λ words. length words.items ≡ size) }
    ensures each { IfOk result (λ words. (v : ℕ) → v < size
        → slice_index words.items v ≡ vertex_word (record { stamp = slice_index stamps.now v; core = slice_index core.now v })) }
{
    let mut words = Vec::with_capacity(alloc, size as usize)?;
    for v in 0..size as usize {
        let word = VertexWord {
            stamp: stamps[v],
            core: core[v],
        };
        words.push(word.pack())?;
    }
    Ok(words)
}

/// Whether a vertex stands in a level.
fn has_vertex(writer: &Writer, core: &[u32], level: u32) -> bool
    requires list { IsHeaded writer.now core.now }
    requires level { level < length core.now }
    ensures { MatchBool result
        ((v : ℕ) × (v < length core.now) × (slice_index core.now v ≡ level))
        ((v : ℕ) → v < length core.now → slice_index core.now v ≢ level) }
{
    let head = core.len() as u32 + level;
    writer.before(head + 1).unwrap_or(head) != head
}

/// The greatest level after `v` was moved. No level stands above the greatest before and that of `v`; where the greatest is left
/// empty, those between are looked at.
fn top_after(writer: &Writer, core: &[u32], top: u32, v: u32) -> u32
    requires list { IsHeaded writer.now core.now }
    requires vertex { v < length core.now }
    requires top { top < length core.now }
    requires most { (w : ℕ) → w < length core.now → slice_index core.now w ≤ max top (slice_index core.now v) }
    ensures { IsTop core.now result }
{
    let level = core[v as usize];
    let mut top = top;
    while top > level {
        if has_vertex(writer, core, top) {
            return top;
        }
        top -= 1;
    }
    level
}
