//! States that a local test can ask.
ghost use Rattle.std.specs.Prelude.{◌≡◌, ◌≢◌, ◌<◌, ℕ, length, slice_index, nat_lt};
ghost use Rattle.kc_lists.specs.Lists.{place_of};
ghost use Rattle.kc_graph.specs.Lawful.{Ranked, IsCertified};
ghost use Rattle.kc_graph.specs.Neighbours.{neighbours_of};

use kc_graph::Lawful;

/// A graph with its core numbers and an order that certifies them, asked one vertex at a time. No call takes memory.
pub trait State {
    /// The graph, the core numbers and the order.
    ghost state: { Self → Ranked };

    /// The number of vertices.
    fn vertices(&self) -> u32
        ensures number { result ≡ (state self.now).graph.size }
        ensures certified { IsCertified (state self.now) };

    /// How many neighbours a vertex has.
    fn degree(&self, v: u32) -> u32
        requires { v < (state self.now).graph.size }
        ensures { result ≡ length (neighbours_of (state self.now).graph v) };

    /// The neighbour of `v` at place `i` of its neighbours in ascending order.
    fn neighbour(&self, v: u32, i: u32) -> u32
        requires vertex { v < (state self.now).graph.size }
        requires place { i < length (neighbours_of (state self.now).graph v) }
        ensures { result ≡ slice_index (neighbours_of (state self.now).graph v) i };

    /// The core number of a vertex.
    fn core(&self, v: u32) -> u32
        requires { v < (state self.now).graph.size }
        ensures { result ≡ slice_index (state self.now).core v };

    /// Whether `x` stands before `y` in the order.
    fn precedes(&self, x: u32, y: u32) -> bool
        requires differ { x ≢ y }
        requires first { x < (state self.now).graph.size }
        requires second { y < (state self.now).graph.size }
        ensures { result ≡ nat_lt (place_of x (state self.now).order) (place_of y (state self.now).order) };
}

impl State for Lawful {
    ghost state = { λ s. s };

    fn vertices(&self) -> u32 {
        self.graph().vertices()
    }

    fn degree(&self, v: u32) -> u32 {
        let graph = self.graph();
        // There are fewer neighbours than vertices, whose number fits.
        let _vertices = graph.vertices();
        graph.neighbours(v).len() as u32
    }

    fn neighbour(&self, v: u32, i: u32) -> u32 {
        self.graph().neighbours(v)[i as usize]
    }

    fn core(&self, v: u32) -> u32 {
        Lawful::core(self)[v as usize]
    }

    fn precedes(&self, x: u32, y: u32) -> bool {
        self.place(x) < self.place(y)
    }
}
