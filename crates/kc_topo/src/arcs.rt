//! The state behind the lock: a list of vertices that is topological for the arcs that its log has entered.
ghost use Rattle.std.specs.Prelude.{◌≡◌, ◌≢◌, ◌<◌, ◌≤◌, ◌*◌, ◌∷◌, [], IfOk, IfErr, OnOk, OnErr, false, length};
ghost use mathlib.Core.List.{IsPrefix};
ghost use Rattle.kc_words.specs.declared.note.NoteWord.TheVariants.{Enter};
ghost use Rattle.kc_words.specs.declared.layout.TheConstants.{VERTICES};
ghost use Rattle.kc_order.specs.Writers.{HasRoom};
ghost use Rattle.kc_topo.specs.Arcs.{Reaches, arcs_after, ascending, entry_of, has_arc, note_of_arc};
ghost use Rattle.kc_topo.specs.Dags.{AddsArc, IsAdded, IsDagAlong, IsRefused, IsRunFor, OpensDag, told};

use crate::NoMemory;
use crate::added::Added;
use crate::fault::DagFault;
use crate::reached::Reached;
use crate::searching::find_run;
use crate::successors::Successors;
use kc_graph::Update;
use kc_order::Writer;
use kc_table::{Pass, Words};
use kc_words::{LAST_VERSION, Shape, VERTICES};
use std::alloc::Global;
use std::marker::Model;

/// How many versions each moved vertex needs.
const VERSIONS_A_MOVE: u32 = 3;

/// The arcs of an acyclic graph, and the right to add to them. Contracts see its table and the whole log.
///
/// After each prefix of the log all vertices are in the list, no arc stands twice, and the list is topological for the arcs.
///
/// # Example
///
/// ```rust
/// use kc_topo::Arcs;
///
/// let (words, mut arcs, mut pass) = Arcs::open(alloc, 3)?;
/// let added = arcs.add(alloc, &words, &mut pass, 2, 0)?; // New: the order is 1, 2, 0 now
/// let again = arcs.add(alloc, &words, &mut pass, 2, 0)?; // There
/// let refused = arcs.add(alloc, &words, &mut pass, 0, 2); // Err(Cycle), with the walk 2, 0
/// let stands = arcs.has(2, 0); // true
/// ```
#[derive(Drop)]
pub struct Arcs {
    writer: Writer,
    successors: Successors,
    reached: Reached,
}

impl Model for Arcs {
    ghost use Rattle.std.specs.Prelude.{◌≡◌, []};
    ghost use Rattle.kc_table.specs.Log.{Seen};
    ghost use Rattle.kc_topo.specs.Dags.{KeepsRows};

    ghost Value = { Seen };

    ghost view = { λ s. s.writer };

    ghost invariant = { λ s. KeepsRows s.writer s.successors × (s.reached ≡ record { vertices = []; parents = []; size = s.writer.table.shape.items }) };
}

impl Arcs {
    /// A graph with these vertices, in ascending order, and no arc; with its words and a first pass.
    pub fn open(alloc: Global, vertices: u32) -> Result<(Words, Arcs, Pass), NoMemory>
        requires some { 1 ≤ vertices }
        requires few { vertices ≤ VERTICES }
        ensures { IfOk result (λ r. OpensDag vertices r.0 r.1 r.2) }
    {
        let shape = Shape {
            items: vertices,
            fixed: 0,
            base: 0,
            version: 0,
        };
        let order = ascending(alloc, vertices)?;
        let successors = Successors::new(alloc, vertices)?;
        let reached = Reached::new(alloc, vertices)?;
        let (words, writer, pass) = Writer::open(alloc, shape, &order, &[])?;
        let arcs = Arcs {
            writer,
            successors,
            reached,
        };
        Ok((words, arcs, pass))
    }

    /// Adds the arc from `a` to `b`. Where `b` stands before `a`, those vertices that walks reach from `b` and that stand before `a` move
    /// first, to right after `a` in their order; then the arc is entered by the last two stores. Whatever is answered, the pass has then seen
    /// the whole log. It begins anew with no load and no split.
    ///
    /// `There` where the arc stands already: nothing changes. Else `Cycle` where a walk leads from `b` to `a`, also where they are one, and
    /// else `Spent` where the versions of the words leave no room for three stores for each vertex that would move. After these, and where
    /// there is no memory, arcs and list are as they were.
    pub fn add(
        &mut self,
        alloc: Global,
        words: &Words,
        pass: &mut Pass,
        a: u32,
        b: u32,
    ) -> Result<Added, DagFault>
        requires table { (pass.old.table ≡ words.now) × (self.old.table ≡ words.now) }
        requires vertices { (a < words.now.shape.items) × (b < words.now.shape.items) }
        ensures table { self.new.table ≡ self.old.table }
        ensures pass { pass.new ≡ told self.new }
        ensures longer { IsPrefix pass.old.log self.old.log }
        ensures dag { IsDagAlong self.new.table self.new.log }
        ensures added { IfOk result (IsAdded self.old self.new a b) }
        ensures refused { IfErr result (IsRefused self.old a b) }
        ensures unchanged { OnErr result (self.new ≡ self.old) }
    {
        self.writer.tell(words, pass);
        if self.has(a, b) {
            return Ok(Added::There);
        }
        let run = self.run_for(alloc, a, b)?;
        let highest = self.writer.highest();
        let needed = VERSIONS_A_MOVE * run.len() as u32;
        if highest > LAST_VERSION - needed {
            return Err(DagFault::Spent { highest, needed });
        }
        self.enter(words, &run, a, b)?;
        self.writer.tell(words, pass);
        Ok(Added::New)
    }

    /// Whether the arc from `a` to `b` stands.
    pub fn has(&self, a: u32, b: u32) -> bool
        requires { a < self.now.table.shape.items }
        ensures { result ≡ has_arc (arcs_after self.now.table self.now.log) a b }
    {
        self.successors.of(a).contains(&b)
    }

    /// Tells a pass the whole log, of which it had seen a prefix. After each prefix of it the list is topological for the arcs.
    pub fn tell(&mut self, words: &Words, pass: &mut Pass)
        requires table { (pass.old.table ≡ words.now) × (self.old.table ≡ words.now) }
        ensures unchanged { self.new ≡ self.old }
        ensures pass { pass.new ≡ told self.old }
        ensures longer { IsPrefix pass.old.log self.old.log }
        ensures dag { IsDagAlong self.old.table self.old.log }
    {
        self.writer.tell(words, pass);
    }

    /// The run that moves for an arc that does not stand yet; or why there is none.
    fn run_for(&mut self, alloc: Global, a: u32, b: u32) -> Result<Vec<u32>, DagFault>
        requires vertices { (a < self.old.table.shape.items) × (b < self.old.table.shape.items) }
        requires fresh { has_arc (arcs_after self.old.table self.old.log) a b ≡ false }
        ensures unchanged { self.new ≡ self.old }
        ensures run { IfOk result (λ run. IsRunFor self.old a b run.items × (Reaches (arcs_after self.old.table self.old.log) b a → ⊥)) }
        ensures refused { IfErr result (IsRefused self.old a b) }
    {
        let Arcs {
            writer,
            successors,
            reached,
        } = self;
        if a == b {
            return Err(DagFault::Cycle {
                walk: alone(alloc, a)?,
            });
        }
        if writer.precedes(a, b) {
            return Ok(Vec::new(alloc));
        }
        let answer = find_run(alloc, writer, successors, reached, a, b);
        reached.clear();
        answer
    }

    /// Moves the run for an arc to right after `a`, and enters the arc.
    fn enter(&mut self, words: &Words, run: &[u32], a: u32, b: u32) -> Result<(), NoMemory>
        requires table { self.old.table ≡ words.now }
        requires vertices { (a < words.now.shape.items) × (b < words.now.shape.items) }
        requires fresh { has_arc (arcs_after self.old.table self.old.log) a b ≡ false }
        requires acyclic { Reaches (arcs_after self.old.table self.old.log) b a → ⊥ }
        requires run { IsRunFor self.old a b run.now }
        requires room { HasRoom self.old.table self.old.log (3 * length run.now) }
        ensures ok { OnOk result (AddsArc self.old self.new a b) }
        ensures err { OnErr result (self.new ≡ self.old) }
    {
        let Arcs {
            writer,
            successors,
            reached: _,
        } = self;
        successors.push(a, b)?;
        writer.move_after(words, run, a);
        writer.note_enter(words, 0, update_of(a, b));
        Ok(())
    }
}

/// The update by which the arc from `a` to `b` is entered: the lesser end first, and added where the arc leads to the greater.
fn update_of(a: u32, b: u32) -> Update
    requires { a ≢ b }
    ensures note { note_of_arc a b ≡ Enter result.add result.u result.v }
    ensures entry { entry_of a b ≡ record { index = 0; add = result.add; u = result.u; v = result.v } }
{
    if a < b {
        Update {
            add: true,
            u: a,
            v: b,
        }
    } else {
        Update {
            add: false,
            u: b,
            v: a,
        }
    }
}

/// The walk that stays at a vertex.
fn alone(alloc: Global, a: u32) -> Result<Vec<u32>, NoMemory>
    ensures { IfOk result (λ walk. walk.items ≡ a ∷ []) }
{
    let mut walk = Vec::new(alloc);
    walk.push(a)?;
    Ok(walk)
}

/// The numbers below `vertices`, ascending.
fn ascending(alloc: Global, vertices: u32) -> Result<Vec<u32>, NoMemory>
    ensures { IfOk result (λ order. order.items ≡ ascending vertices) }
{
    let mut order = Vec::with_capacity(alloc, vertices as usize)?;
    for v in 0..vertices {
        order.push(v)?;
    }
    Ok(order)
}
