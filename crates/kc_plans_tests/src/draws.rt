//! Random numbers, and updates and answers by them.
ghost use Rattle.std.specs.Prelude.{◌<◌, IfOk};
ghost use Rattle.kc_view.specs.Lists.{IsListOf};

use kc_graph::{Graph, NoMemory, Update};
use rand::RngExt;
use rand_core::SeedableRng;
use rand_xoshiro::Xoshiro256PlusPlus;
use std::alloc::Global;

/// What is drawn: it follows from a seed and from nothing else.
#[derive(Drop)]
pub(crate) struct Draws {
    numbers: Xoshiro256PlusPlus,
}

impl Draws {
    /// What follows from this seed.
    pub(crate) fn new(seed: u64) -> Draws {
        Draws {
            numbers: Xoshiro256PlusPlus::seed_from_u64(seed),
        }
    }

    /// A number below this one.
    pub(crate) fn below(&mut self, bound: u32) -> u32
        requires { 0 < bound }
        ensures { result < bound }
    {
        self.numbers.random_range(0..bound)
    }

    /// Two different numbers below this one, the lesser one first.
    fn pair(&mut self, bound: u32) -> (u32, u32)
        requires { 1 < bound }
        ensures ordered { result.0 < result.1 }
        ensures within { result.1 < bound }
    {
        let first = self.below(bound);
        let other = self.below(bound - 1);
        if other < first {
            (other, first)
        } else {
            (first, other + 1)
        }
    }

    /// Two vertices that an edge joins, or after some tries without one any two. The lesser one comes first.
    fn joined_pair(&mut self, graph: &Graph) -> (u32, u32)
        requires { 1 < graph.now.size }
        ensures ordered { result.0 < result.1 }
        ensures within { result.1 < graph.now.size }
    {
        for _ in 0..8 {
            let (u, v) = self.pair(graph.vertices());
            if graph.has(u, v) {
                return (u, v);
            }
        }
        self.pair(graph.vertices())
    }

    /// An update of the graph: any edge comes, or mostly one that is there goes.
    pub(crate) fn update(&mut self, graph: &Graph) -> Update
        requires { 1 < graph.now.size }
        ensures { result.v < graph.now.size }
    {
        let add = self.side();
        let (u, v) = if add {
            self.pair(graph.vertices())
        } else {
            self.joined_pair(graph)
        };
        Update { add, u, v }
    }

    /// One side or the other.
    pub(crate) fn side(&mut self) -> bool {
        self.numbers.random()
    }

    /// A core number: mostly one of four, so that vertices meet on a level, and sometimes any number.
    pub(crate) fn core(&mut self) -> u32 {
        if self.below(8) == 0 {
            self.numbers.random()
        } else {
            self.below(4)
        }
    }

    /// A list for `w`: each other vertex is on it or not.
    pub(crate) fn list(&mut self, alloc: Global, size: u32, w: u32) -> Result<Vec<u32>, NoMemory>
        ensures { IfOk result (λ list. IsListOf size w list.items) }
    {
        let mut list = Vec::new(alloc);
        for y in 0..size {
            if y != w && self.side() {
                list.push(y)?;
            }
        }
        Ok(list)
    }
}
