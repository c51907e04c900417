//! A graph, kept as the neighbours of each vertex in ascending order.
ghost use Rattle.std.specs.Prelude.{◌≡◌, ◌≢◌, ◌<◌, ◌^◌, IfOk, OnOk, OnErr, not, ℕ, length};
ghost use Rattle.std.specs.FinSet as set;
ghost use Rattle.kc_graph.specs.SimpleGraph.{SimpleGraph, adjacent};
ghost use Rattle.kc_graph.specs.Edges.{with_edge, without_edge};
ghost use Rattle.kc_graph.specs.Neighbours.{AreNeighbours};
ghost use Rattle.kc_graph.specs.Rows.{IsAdjacency, HoldsEdges, graph_of};

use crate::NoMemory;
use crate::ascending::place_in;
use crate::neighbours::Neighbours;
use crate::rows::Rows;
use std::alloc::Global;
use std::marker::Model;

/// A simple undirected graph: its vertices are the numbers from 0 to below `vertices`, and its edges are a set of pairs of two
/// different ones.
///
/// # Example
///
/// ```rust
/// use kc_graph::Graph;
///
/// let mut graph = Graph::new(alloc, 3)?;
/// let is_new = graph.add(0, 1)?; // true
/// let again = graph.add(1, 0)?; // false: it is the same edge
/// graph.add(1, 2)?;
/// let neighbours = graph.neighbours(1); // 0, 2
/// let was_there = graph.remove(0, 1); // true
/// let edges = graph.edges(); // 1
/// ```
#[derive(Debug, Drop)]
pub struct Graph {
    rows: Rows,
    edges: u64,
}

impl Model for Graph {
    ghost use Rattle.kc_graph.specs.SimpleGraph.{SimpleGraph};
    ghost use Rattle.kc_graph.specs.Rows.{graph_of, code_of_graph, HoldsEdges};

    ghost Value = { SimpleGraph };

    ghost coded = { code_of_graph };

    ghost view = { λ a. graph_of a.rows };

    ghost invariant = { λ a. HoldsEdges a.rows a.edges };
}

impl Graph {
    /// A graph with this number of vertices and no edges, or `NoMemory` where there is none for an empty row a vertex.
    pub fn new(alloc: Global, vertices: u32) -> Result<Graph, NoMemory>
        ensures { IfOk result (λ g. g ≡ record { size = vertices; edges = set.empty }) }
    {
        let rows = Rows::empty(alloc, vertices)?;
        Ok(Graph { rows, edges: 0 })
    }

    /// The graph of rows that say which vertices are neighbours.
    pub(crate) fn from_rows(rows: Rows) -> Graph
        requires adjacency { IsAdjacency rows }
        requires few { length rows < 2 ^ 32 }
        ensures { result ≡ graph_of rows }
    {
        let edges = rows.entries() / 2;
        Graph { rows, edges }
    }

    /// How many vertices there are: they are the numbers below this.
    pub fn vertices(&self) -> u32
        ensures { result ≡ self.now.size }
    {
        self.rows.count() as u32
    }

    /// How many edges there are, each counted once.
    pub fn edges(&self) -> u64
        ensures { result ≡ set.len self.now.edges }
    {
        self.edges
    }

    /// The neighbours of a vertex, in ascending order.
    pub fn neighbours(&self, v: u32) -> &[u32]
        requires { v < self.now.size }
        ensures { AreNeighbours self.now v result.now }
    {
        self.rows.get(v)
    }

    /// Whether an edge joins the two vertices, in either order. No vertex is its own neighbour.
    pub fn has(&self, u: u32, v: u32) -> bool
        requires { u < self.now.size }
        ensures { result ≡ adjacent self.now u v }
    {
        place_in(self.rows.get(u), v).is_ok()
    }

    /// Adds the edge between two vertices, and tells whether it was not there before. The vertices stay the same. Where there is no
    /// memory for it, the graph stays as it was and the answer is `NoMemory`.
    ///
    /// Edges that come in ascending order, each with its lesser end first, cost no search and move nothing.
    pub fn add(&mut self, u: u32, v: u32) -> Result<bool, NoMemory>
        requires differ { u ≢ v }
        requires u_in { u < self.old.size }
        requires v_in { v < self.old.size }
        ensures is_new { IfOk result (λ is_new. is_new ≡ not (adjacent self.old u v)) }
        ensures ok { OnOk result (self.new ≡ with_edge self.old u v) }
        ensures err { OnErr result (self.new ≡ self.old) }
    {
        if self.has(u, v) {
            return Ok(false);
        }
        self.rows.insert_both(u, v)?;
        self.edges += 1;
        Ok(true)
    }

    /// Removes the edge between two vertices, and tells whether it was there before. The vertices stay the same. It takes no memory.
    pub fn remove(&mut self, u: u32, v: u32) -> bool
        requires differ { u ≢ v }
        requires u_in { u < self.old.size }
        requires v_in { v < self.old.size }
        ensures was_there { result ≡ adjacent self.old u v }
        ensures removed { self.new ≡ without_edge self.old u v }
    {
        if !self.has(u, v) {
            return false;
        }
        self.rows.delete_both(u, v);
        self.edges -= 1;
        true
    }

    /// The neighbours of each vertex as counted lists.
    pub(crate) fn into_lists(self) -> Result<Vec<Neighbours>, NoMemory>
        ensures lists { IfOk result (λ lists. graph_of lists.items ≡ self) }
        ensures held { IfOk result (λ lists. HoldsEdges lists.items (set.len self.edges)) }
    {
        self.rows.to_lists()
    }

    /// The same graph once more.
    pub(crate) fn copy(&self, alloc: Global) -> Result<Graph, NoMemory>
        ensures { IfOk result (λ g. g ≡ self.now) }
    {
        let rows = self.rows.copy(alloc)?;
        let edges = self.edges;
        Ok(Graph { rows, edges })
    }
}
