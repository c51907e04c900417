//! A graph in one array.
ghost use Rattle.std.specs.Prelude.{◌≡◌, ◌<◌, ◌^◌, ◌++◌, length, map, All, IfOk, List, OnOk};
ghost use Rattle.std.specs.FinSet as set;
ghost use Rattle.kc_graph.specs.Bulk.{graph_with};
ghost use Rattle.kc_graph.specs.Gathering.{edge_of};
ghost use Rattle.kc_graph.specs.Neighbours.{AreNeighbours, edges_to_greater};
ghost use Rattle.kc_flat.specs.Listing.{edge_list};
ghost use Rattle.kc_flat.specs.Pairs.{AreWithin};
ghost use Rattle.kc_graph.specs.declared.bulk.Edge.{Edge};
ghost use Rattle.kc_flat.specs.Parts.{AreEndsOf};

use crate::NoMemory;
use crate::gathering::gather;
use crate::packing::drop_repeats;
use crate::parts::part_of;
use crate::sorting::sort_parts;
use kc_graph::gathering::Gathered;
use std::alloc::Global;
use std::marker::Model;

/// A simple undirected graph that stays as it was made: its vertices are the numbers from 0 to below `vertices`, and its edges are a set
/// of pairs of two different ones. It takes 8 bytes an edge and 8 a vertex.
///
/// # Example
///
/// ```rust
/// use kc_flat::{FlatGraph, core_numbers};
///
/// let pairs = [(2, 1), (1, 0), (0, 2), (1, 2), (3, 3), (2, 3)];
/// let graph = FlatGraph::from_pairs(alloc, 5, &pairs)?;
/// let edges = graph.edges(); // 4: no loop, and an edge that is listed again counts once
/// let neighbours = graph.neighbours(2); // 0, 1, 3
/// let core = core_numbers(alloc, &graph)?; // 2, 2, 2, 1, 0
/// ```
#[derive(Debug, Drop)]
pub struct FlatGraph {
    block: Vec<u32>,
    ends: Vec<usize>,
}

impl Model for FlatGraph {
    ghost use Rattle.kc_graph.specs.SimpleGraph.{SimpleGraph};
    ghost use Rattle.kc_graph.specs.Rows.{graph_of, code_of_graph};
    ghost use Rattle.kc_flat.specs.Parts.{parts_from, IsFlat};

    ghost Value = { SimpleGraph };

    ghost coded = { code_of_graph };

    ghost view = { λ a. graph_of (parts_from 0 a.ends.items a.block.items) };

    ghost invariant = { λ a. IsFlat a.ends.items a.block.items };
}

/// For each vertex the other ends of its pairs, with repeats but sorted.
fn sorted_ends(alloc: Global, vertices: u32, pairs: &[(u32, u32)]) -> Result<Gathered, NoMemory>
    requires { AreWithin vertices pairs.now }
    ensures count { IfOk result (λ g. length g.ends.items ≡ vertices) }
    ensures ends { IfOk result (λ g. AreEndsOf (map edge_of pairs.now) g.ends.items g.block.items) }
{
    let mut gathered = gather(alloc, vertices, pairs)?;
    sort_parts(&mut gathered.block, &gathered.ends);
    Ok(gathered)
}

/// The graph with these ends at its vertices. Of an end that is there again, one is kept.
pub(crate) fn packed(gathered: Gathered) -> FlatGraph
    requires few { length gathered.ends.items < 2 ^ 32 }
    requires ends { (edges : List Edge) × AreEndsOf edges gathered.ends.items gathered.block.items }
    ensures { (edges : List Edge) → AreEndsOf edges gathered.ends.items gathered.block.items → result ≡ graph_with (length gathered.ends.items) edges }
{
    let Gathered {
        mut block,
        mut ends,
    } = gathered;
    let kept = drop_repeats(&mut block, &mut ends);
    block.truncate(kept);
    block.shrink_to_fit();
    FlatGraph { block, ends }
}

/// Puts the edges from a vertex to those of its neighbours that are greater behind others.
fn push_greater(v: u32, neighbours: &[u32], edges: &mut Vec<(u32, u32)>) -> Result<(), NoMemory>
    ensures { OnOk result (edges.new.items ≡ edges.old.items ++ edges_to_greater v neighbours.now) }
{
    for w in neighbours {
        if v < *w {
            edges.push((v, *w))?;
        }
    }
    Ok(())
}

impl FlatGraph {
    /// The graph with this number of vertices and these pairs as its edges, in time linear in both but for the sorting of each vertex's
    /// neighbours. The pairs come in any order, with either end first. A loop is dropped, and a pair that is listed again, in either
    /// direction, counts once. Beside the pairs it takes 8 bytes a pair and 8 a vertex. `NoMemory` comes where there is none for that, or
    /// where there are more ends than can be counted.
    pub fn from_pairs(
        alloc: Global,
        vertices: u32,
        pairs: &[(u32, u32)],
    ) -> Result<FlatGraph, NoMemory>
        requires { AreWithin vertices pairs.now }
        ensures { IfOk result (λ g. g ≡ graph_with vertices (map edge_of pairs.now)) }
    {
        Ok(packed(sorted_ends(alloc, vertices, pairs)?))
    }

    /// How many vertices there are: they are the numbers below this.
    pub fn vertices(&self) -> u32
        ensures { result ≡ self.now.size }
    {
        self.ends.len() as u32
    }

    /// How many edges there are, each counted once.
    pub fn edges(&self) -> u64
        ensures { result ≡ set.len self.now.edges }
    {
        self.block.len() as u64 / 2
    }

    /// The neighbours of a vertex, in ascending order.
    pub fn neighbours(&self, v: u32) -> &[u32]
        requires { v < self.now.size }
        ensures { AreNeighbours self.now v result.now }
    {
        part_of(&self.block, &self.ends, v as usize)
    }

    /// The number at the end of a vertex's row, or 0. Nothing is promised of it: who asks has the row in the cache afterwards.
    pub(crate) fn look_at(&self, v: u32) -> u32 {
        let end = match self.ends.get(v as usize) {
            Some(end) => *end,
            None => 0,
        };
        match self.block.get(end.saturating_sub(1)) {
            Some(number) => *number,
            None => 0,
        }
    }

    /// The edges, each once with its lesser end first, ascending by this end and then by the other one. The list takes 8 bytes an edge,
    /// and `NoMemory` comes where there is none for it. The clauses say also that it has pairs of two vertices, and that its set is that of the
    /// edges.
    pub fn edge_list(&self, alloc: Global) -> Result<Vec<(u32, u32)>, NoMemory>
        ensures list { IfOk result (λ edges. edges.items ≡ edge_list self.now) }
        ensures within { IfOk result (λ edges. All (λ p. (p.0 < p.1) × (p.1 < self.now.size)) edges.items) }
        ensures whole { IfOk result (λ edges. self.now ≡ record { size = self.now.size; edges = set.from_list edges.items }) }
    {
        let mut edges = Vec::with_capacity(alloc, self.block.len() / 2)?;
        for v in 0..self.vertices() {
            push_greater(v, self.neighbours(v), &mut edges)?;
        }
        Ok(edges)
    }
}
