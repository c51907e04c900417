//! Random arcs, some of which close cycles, added to the graph and to a plain model beside it.
ghost use Rattle.std.specs.Prelude.{◌≡◌, ◌≤◌, ◌<◌, IfOk};
ghost use Rattle.kc_words.specs.declared.layout.TheConstants.{VERTICES};

use crate::model::{Expected, Model};
use crate::ordered::Ordered;
use kc_topo::{Added, DagFault, NoMemory};
use rand::RngExt;
use rand_core::SeedableRng;
use rand_xoshiro::Xoshiro256PlusPlus;
use std::alloc::Global;

/// How many arcs were added to both and answered alike, by what was answered.
#[derive(Clone, Copy, Drop)]
pub(crate) struct Agreed {
    pub(crate) entered: u64,
    pub(crate) there: u64,
    pub(crate) cycles: u64,
}

impl Agreed {
    /// One more of this kind.
    fn count(&mut self, expected: Expected) {
        match expected {
            Expected::New => self.entered = self.entered.wrapping_add(1),
            Expected::There => self.there = self.there.wrapping_add(1),
            Expected::Cycle => self.cycles = self.cycles.wrapping_add(1),
        }
    }
}

/// A graph and a model of it, to which the same arcs are added.
#[derive(Drop)]
struct Both {
    ordered: Ordered,
    model: Model,
}

impl Both {
    /// Both without an arc, on so many vertices.
    fn new(alloc: Global, vertices: u32) -> Result<Both, NoMemory>
        requires low { 1 ≤ vertices }
        requires high { vertices ≤ VERTICES }
        ensures { IfOk result (λ both. both.ordered.words.shape.items ≡ vertices) }
    {
        let model = Model::new(alloc, vertices)?;
        let ordered = Ordered::new(alloc, vertices)?;
        Ok(Both { ordered, model })
    }

    /// Adds the arc from `a` to `b` to the graph. Whether it answers as the model expects.
    fn answers(&mut self, alloc: Global, expected: Expected, a: u32, b: u32) -> bool
        requires { (a < self.old.ordered.words.shape.items) × (b < self.old.ordered.words.shape.items) }
        ensures { self.new.ordered.words ≡ self.old.ordered.words }
    {
        let answer = self.ordered.add(alloc, a, b);
        is_expected(&self.model, expected, &answer, a, b)
    }

    /// Adds the arc from `a` to `b` to both. Gives what was answered, or none where the answers or the orders differ.
    fn add(&mut self, alloc: Global, a: u32, b: u32) -> Result<Option<Expected>, NoMemory>
        requires { (a < self.old.ordered.words.shape.items) × (b < self.old.ordered.words.shape.items) }
        ensures { self.new.ordered.words ≡ self.old.ordered.words }
    {
        let expected = self.model.expected(a, b);
        if !self.answers(alloc, expected, a, b) {
            return Ok(None);
        }
        if expected == Expected::New {
            self.model.enter(alloc, a, b)?;
        }
        let stand = stand_in(&mut self.ordered, self.model.order());
        Ok(if stand { Some(expected) } else { None })
    }

    /// Adds so many random arcs to both. Counts what was answered; gives none where one differs.
    fn add_all(&mut self, alloc: Global, seed: u64, count: u32) -> Result<Option<Agreed>, NoMemory>
        requires { 1 ≤ self.old.ordered.words.shape.items }
    {
        let vertices = self.ordered.vertices();
        let mut draws = Xoshiro256PlusPlus::seed_from_u64(seed);
        let mut agreed = Agreed {
            entered: 0,
            there: 0,
            cycles: 0,
        };
        for _ in 0..count {
            let a = draws.random_range(0..vertices);
            let b = draws.random_range(0..vertices);
            match self.add(alloc, a, b)? {
                Some(expected) => agreed.count(expected),
                None => return Ok(None),
            }
        }
        Ok(Some(agreed))
    }
}

/// Whether an answer is the one that the model expects; for a cycle, with a walk of the model's arcs.
fn is_expected(
    model: &Model,
    expected: Expected,
    answer: &Result<Added, DagFault>,
    a: u32,
    b: u32,
) -> bool {
    match answer {
        Ok(Added::New) => expected == Expected::New,
        Ok(Added::There) => expected == Expected::There,
        Err(DagFault::Cycle { walk }) => {
            expected == Expected::Cycle && model.has_walk(walk, b, a)
        }
        Err(_) => false,
    }
}

/// Whether the vertices stand in this order.
fn stand_in(ordered: &mut Ordered, order: &[u32]) -> bool
    ensures { ordered.new.words ≡ ordered.old.words }
{
    let mut all = true;
    for (x, y) in order.iter().zip(order.iter().skip(1)) {
        all = all && ordered.stands_before(*x, *y);
    }
    all
}

/// Adds so many random arcs to a graph and to a model of it. Counts what was answered; gives none where one differs.
pub(crate) fn agree(
    alloc: Global,
    vertices: u32,
    seed: u64,
    count: u32,
) -> Result<Option<Agreed>, NoMemory>
    requires low { 1 ≤ vertices }
    requires high { vertices ≤ VERTICES }
{
    let mut both = Both::new(alloc, vertices)?;
    both.add_all(alloc, seed, count)
}
