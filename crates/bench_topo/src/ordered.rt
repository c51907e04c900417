//! The graph that is measured, as one thread has it.
ghost use Rattle.std.specs.Prelude.{◌≡◌, ◌<◌, ◌≤◌, IfErr, IfOk};
ghost use Rattle.kc_words.specs.declared.layout.TheConstants.{VERTICES};

use kc_order::{Answer, precedes};
use kc_table::{Pass, Words, shape};
use kc_topo::{Added, Arcs, DagFault, NoMemory};
use std::alloc::Global;

/// An acyclic graph, its words, and a pass over them.
#[derive(Drop)]
pub(crate) struct Ordered {
    words: Words,
    arcs: Arcs,
    pass: Pass,
    ghost one_table: { (arcs.table ≡ words) × (pass.table ≡ words) },
}

impl Ordered {
    ghost use Rattle.kc_topo.specs.Dags.{IsAdded, IsRefused};

    /// So many vertices in ascending order, and no arc.
    pub(crate) fn new(alloc: Global, vertices: u32) -> Result<Ordered, NoMemory>
        requires low { 1 ≤ vertices }
        requires high { vertices ≤ VERTICES }
        ensures { IfOk result (λ ordered. ordered.words.shape.items ≡ vertices) }
    {
        let (words, arcs, pass) = Arcs::open(alloc, vertices)?;
        Ok(Ordered { words, arcs, pass })
    }

    /// How many vertices there are.
    pub(crate) fn vertices(&self) -> u32
        ensures { result ≡ self.now.words.shape.items }
    {
        shape(&self.words).items
    }

    /// Adds the arc from `a` to `b`.
    pub(crate) fn add(&mut self, alloc: Global, a: u32, b: u32) -> Result<Added, DagFault>
        requires { (a < self.old.words.shape.items) × (b < self.old.words.shape.items) }
        ensures words { self.new.words ≡ self.old.words }
        ensures added { IfOk result (IsAdded self.old.arcs self.new.arcs a b) }
        ensures refused { IfErr result (IsRefused self.old.arcs a b) }
    {
        self.arcs.add(alloc, &self.words, &mut self.pass, a, b)
    }

    /// Whether a vertex stands before another. A number of no vertex stands before none.
    pub(crate) fn stands_before(&mut self, x: u32, y: u32) -> bool
        ensures { self.new.words ≡ self.old.words }
    {
        if x >= self.vertices() || y >= self.vertices() {
            return false;
        }
        precedes(&self.words, &mut self.pass, x, y) == Answer::Before
    }
}
