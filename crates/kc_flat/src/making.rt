//! Who makes graphs of pairs.
ghost use Rattle.std.specs.Prelude.{◌≡◌, map, IfOk};
ghost use Rattle.kc_graph.specs.Bulk.{graph_with};
ghost use Rattle.kc_graph.specs.Gathering.{edge_of};
ghost use Rattle.kc_flat.specs.Pairs.{AreWithin};

use crate::NoMemory;
use crate::graph::FlatGraph;
use std::alloc::Global;

/// Who makes graphs of pairs: one thread, or several, as [`from_pairs_in`] does.
///
/// [`from_pairs_in`]: crate::from_pairs_in
pub trait GraphMaker {
    /// Makes the graph that [`FlatGraph::from_pairs`] makes, by at most so many threads. `NoMemory` comes where there is none for it, or where
    /// there are more ends than can be counted.
    fn make_graph(
        &self,
        alloc: Global,
        threads: u32,
        vertices: u32,
        pairs: &[(u32, u32)],
    ) -> Result<FlatGraph, NoMemory>
        requires { AreWithin vertices pairs.now }
        ensures { IfOk result (λ g. g ≡ graph_with vertices (map edge_of pairs.now)) };
}

/// One thread alone, however many are allowed.
#[derive(Clone, Copy, Debug)]
pub struct OneThread;

impl GraphMaker for OneThread {
    fn make_graph(
        &self,
        alloc: Global,
        _threads: u32,
        vertices: u32,
        pairs: &[(u32, u32)],
    ) -> Result<FlatGraph, NoMemory> {
        FlatGraph::from_pairs(alloc, vertices, pairs)
    }
}
