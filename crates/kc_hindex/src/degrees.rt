//! The degrees of a graph's vertices.
ghost use Rattle.std.specs.Prelude.{IfOk};
ghost use Rattle.kc_hindex.specs.Rounds.{HasRound};

use kc_graph::{Graph, NoMemory};
use std::alloc::Global;

/// How many neighbours each vertex has, indexed by the vertex.
pub(crate) fn degrees_of(alloc: Global, graph: &Graph) -> Result<Vec<u32>, NoMemory>
    ensures { IfOk result (λ degrees. HasRound graph.now 0 degrees.items) }
{
    let n = graph.vertices();
    let mut degrees = Vec::with_capacity(alloc, n as usize)?;
    for v in 0..n {
        degrees.push(graph.neighbours(v).len() as u32)?;
    }
    Ok(degrees)
}
