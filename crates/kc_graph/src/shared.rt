//! A graph whose lists of neighbours are counted, so that others may hold them while it changes.
//!
//! An update makes the two lists that it changes anew, before anything is changed, and then puts them in the place of the old ones, which
//! their holders keep. `Graph` changes its lists where they lie, and so can remove an edge without memory; its lists can't be shared.
ghost use Rattle.std.specs.Prelude.{◌≡◌, ◌<◌, ◌≤◌, [], true, not, IfOk, OnErr, length, replicate};
ghost use Rattle.std.specs.FinSet as set;
ghost use Rattle.std.specs.List.Sorted.{IsStrictlyIncreasing};
ghost use Rattle.kc_lists.specs.Lists.{member};
ghost use Rattle.kc_graph.specs.SimpleGraph.{SimpleGraph, adjacent};
ghost use Rattle.kc_graph.specs.Neighbours.{AreNeighbours, neighbours_of};
ghost use Rattle.kc_graph.specs.Plans.{is_applied, updated};
ghost use Rattle.kc_graph.specs.Sharing.{AreListsAfter, IsChanged};
ghost use Rattle.kc_graph.specs.Growing.{HasItsEnds, with_vertices};

use crate::NoMemory;
use crate::ascending::{delete_from, insert_into, place_in};
use crate::graph::Graph;
use crate::neighbours::Neighbours;
use crate::rows::Rows;
use crate::update::Update;
use std::alloc::Global;
use std::marker::Model;

/// A simple undirected graph, as `Graph` is one, with a counted list of neighbours for each vertex.
#[derive(Debug, Drop)]
pub struct SharedGraph {
    rows: Vec<Neighbours>,
    edges: u64,
}

impl Model for SharedGraph {
    ghost use Rattle.kc_graph.specs.SimpleGraph.{SimpleGraph};
    ghost use Rattle.kc_graph.specs.Rows.{graph_of, code_of_graph, HoldsEdges};

    ghost Value = { SimpleGraph };

    ghost coded = { code_of_graph };

    ghost view = { λ a. graph_of a.rows.items };

    ghost invariant = { λ a. HoldsEdges a.rows.items a.edges };
}

/// The neighbours of the ends of an edge, those of the lesser end first, as they are after an update of that edge.
#[derive(Debug, Drop)]
pub struct ListsAfter {
    pub first: Neighbours,
    pub second: Neighbours,
}

/// An ascending list with one number more or less, in memory of its own.
fn changed(alloc: Global, list: &[u32], add: bool, w: u32) -> Result<Neighbours, NoMemory>
    requires ascends { IsStrictlyIncreasing list.now }
    requires here { member w list.now ≡ not add }
    ensures { IfOk result (λ after. IsChanged add list.now after w) }
{
    let mut after = Vec::with_capacity(alloc, list.len() + 1)?;
    after.extend_from_slice(list)?;
    if add {
        insert_into(&mut after, w);
    } else {
        delete_from(&mut after, w);
    }
    Neighbours::from_vec(after)
}

/// So many empty lists, which share one block.
fn no_lists(alloc: Global, count: usize) -> Result<Vec<Neighbours>, NoMemory>
    ensures { IfOk result (λ lists. lists.items ≡ replicate count []) }
{
    let none = Neighbours::copy_of(alloc, &[])?;
    let mut lists = Vec::with_capacity(alloc, count)?;
    for _ in 0..count {
        lists.push(none.share()?)?;
    }
    Ok(lists)
}

impl SharedGraph {
    /// The same graph, with its lists shared. Those of 64 vertices in a row are copied into one block, which is given back once each of
    /// them was replaced: the holders of a list are counted at its block, and so threads that hold the lists of other vertices seldom count
    /// at one place. Where there is no memory for the lists, the graph is dropped and the answer is `NoMemory`.
    pub fn from_graph(graph: Graph) -> Result<SharedGraph, NoMemory>
        ensures { IfOk result (λ shared. shared ≡ graph) }
    {
        let edges = graph.edges();
        let rows = graph.into_lists()?;
        Ok(SharedGraph { rows, edges })
    }

    /// The same graph, with all its lists copied into one block, so that it shares none with this one. `NoMemory` comes where there is none
    /// for the copy.
    pub fn to_graph(&self, alloc: Global) -> Result<Graph, NoMemory>
        ensures { IfOk result (λ graph. graph ≡ self.now) }
    {
        let rows = Rows::of_lists(alloc, &self.rows)?;
        Ok(Graph::from_rows(rows))
    }

    /// Recalls to a proof that each end of an edge is a vertex, and does nothing when it runs.
    pub fn recall_ends(&self)
        ensures { HasItsEnds self.now }
    {
        let _rows = self.rows.len();
    }

    /// Adds vertices behind the last one, until there are so many in all; they have no neighbours. No list is copied or changed. Where there
    /// is no memory for the new lists, the graph stays as it is.
    pub fn grow(&mut self, alloc: Global, vertices: u32) -> Result<(), NoMemory>
        requires { self.old.size ≤ vertices }
        ensures grown { IfOk result (λ _. self.new ≡ with_vertices vertices self.old) }
        ensures same { OnErr result (self.new ≡ self.old) }
    {
        let more = vertices as usize - self.rows.len();
        let mut rows = no_lists(alloc, more)?;
        self.rows.append(&mut rows)?;
        Ok(())
    }

    /// How many vertices there are: they are the numbers below this.
    pub fn vertices(&self) -> u32
        ensures { result ≡ self.now.size }
    {
        self.rows.len() as u32
    }

    /// How many edges there are, each counted once.
    pub fn edges(&self) -> u64
        ensures { result ≡ set.len self.now.edges }
    {
        self.edges
    }

    /// The neighbours of a vertex, in ascending order.
    pub fn neighbours(&self, v: u32) -> &[u32]
        requires { v < self.now.size }
        ensures { AreNeighbours self.now v result.now }
    {
        self.rows[v as usize].as_slice()
    }

    /// The neighbours of a vertex, in ascending order, as a list that the graph holds too. Nothing is copied. `NoMemory` comes where no
    /// more holders can be counted.
    pub fn share_neighbours(&self, v: u32) -> Result<Neighbours, NoMemory>
        requires { v < self.now.size }
        ensures list { IfOk result (λ list. list ≡ neighbours_of self.now v) }
        ensures near { IfOk result (λ list. AreNeighbours self.now v list) }
    {
        self.rows[v as usize].share()
    }

    /// Whether an edge joins the two vertices, in either order. No vertex is its own neighbour.
    pub fn has(&self, u: u32, v: u32) -> bool
        requires { u < self.now.size }
        ensures { result ≡ adjacent self.now u v }
    {
        place_in(self.neighbours(u), v).is_ok()
    }

    /// The lists of an edge's ends after an update that changes the graph, each in memory of its own. The graph stays as it is. `NoMemory`
    /// comes where there is none for the lists.
    pub fn lists_after(&self, update: Update) -> Result<ListsAfter, NoMemory>
        requires vertices { update.v < self.now.size }
        requires applied { is_applied update self.now ≡ true }
        ensures { IfOk result (λ lists. AreListsAfter update self.now lists) }
    {
        let alloc = *self.rows.allocator();
        let Update { add, u, v, .. } = update;
        let first = changed(alloc, self.neighbours(u), add, v)?;
        let second = changed(alloc, self.neighbours(v), add, u)?;
        Ok(ListsAfter { first, second })
    }

    /// Makes an update that changes the graph, by putting the lists after it in the place of those before it. It takes no memory, and
    /// copies nothing.
    pub fn put_lists(&mut self, update: Update, lists: ListsAfter)
        requires vertices { update.v < self.old.size }
        requires applied { is_applied update self.old ≡ true }
        requires after { AreListsAfter update self.old lists }
        ensures { self.new ≡ updated update self.old }
    {
        self.rows[update.u as usize] = lists.first;
        self.rows[update.v as usize] = lists.second;
        if update.add {
            self.edges += 1;
        } else {
            self.edges -= 1;
        }
    }
}
