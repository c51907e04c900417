//! Small graphs to begin with.
ghost use Rattle.std.specs.Prelude.{◌<◌};

use crate::draws::Draws;
use kc_graph::{Graph, Lawful, NoMemory, decompose};
use std::alloc::Global;

/// Which vertices have an edge between them.
#[derive(Clone, Copy, Debug)]
pub(crate) enum Shape {
    /// None.
    Edgeless,
    /// Each with the next one, and the last with the first.
    Ring,
    /// All.
    Complete,
    /// The first with each other.
    Star,
    /// Each with the ones beside it in rows of four.
    Grid,
    /// All of one five, and the last of each five with the first of the next.
    Cliques,
    /// One pair of six.
    Sparse,
    /// Two pairs of three.
    Dense,
}

/// A graph to begin with, and the seed of what is drawn.
#[derive(Clone, Copy, Debug)]
pub(crate) struct Case {
    pub shape: Shape,
    pub vertices: u32,
    pub seed: u64,
}

/// The table of graphs to begin with.
pub(crate) fn cases() -> [Case; 14] {
    [
        Case::of(Shape::Edgeless, 9, 1),
        Case::of(Shape::Ring, 6, 2),
        Case::of(Shape::Ring, 24, 3),
        Case::of(Shape::Complete, 7, 4),
        Case::of(Shape::Complete, 16, 5),
        Case::of(Shape::Star, 8, 6),
        Case::of(Shape::Star, 20, 7),
        Case::of(Shape::Grid, 12, 8),
        Case::of(Shape::Grid, 24, 9),
        Case::of(Shape::Cliques, 15, 10),
        Case::of(Shape::Cliques, 24, 11),
        Case::of(Shape::Sparse, 18, 12),
        Case::of(Shape::Sparse, 24, 13),
        Case::of(Shape::Dense, 13, 14),
    ]
}

impl Case {
    /// A graph of this shape and number of vertices, and a seed.
    fn of(shape: Shape, vertices: u32, seed: u64) -> Case {
        Case {
            shape,
            vertices,
            seed,
        }
    }

    /// Whether the edge between `u` and `v` is there to begin with.
    fn joins(&self, u: u32, v: u32, draws: &mut Draws) -> bool
        requires { u < v }
    {
        match self.shape {
            Shape::Edgeless => false,
            Shape::Ring => v - u == 1 || v - u == self.vertices.saturating_sub(1),
            Shape::Complete => true,
            Shape::Star => u == 0,
            Shape::Grid => v - u == 4 || (v - u == 1 && v % 4 != 0),
            Shape::Cliques => v - u == 1 || u / 5 == v / 5,
            Shape::Sparse => draws.below(6) == 0,
            Shape::Dense => draws.below(3) != 0,
        }
    }

    /// The graph, with core numbers and an order.
    pub(crate) fn begin(&self, alloc: Global, draws: &mut Draws) -> Result<Lawful, NoMemory> {
        let mut graph = Graph::new(alloc, self.vertices)?;
        for v in 0..self.vertices {
            for u in 0..v {
                if v < graph.vertices() && self.joins(u, v, draws) {
                    graph.add(u, v)?;
                }
            }
        }
        decompose(alloc, &graph)
    }
}
