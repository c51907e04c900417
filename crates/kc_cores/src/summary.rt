//! The line about a graph.
ghost use Rattle.std.specs.Prelude.{◌≡◌, IfOk, string_bytes};
ghost use Rattle.kc_graph.specs.Core.{greatest};
ghost use Rattle.kc_cores.specs.Answers.{summary_line};

use kc_flat::FlatGraph;
use kc_graph::NoMemory;
use std::alloc::Global;

/// The greatest of the numbers, or 0 where there is none.
pub(crate) fn greatest(numbers: &[u32]) -> u32
    ensures { result ≡ greatest numbers.now }
{
    numbers.iter().fold(0, |top, n| top.max(*n))
}

/// How many vertices and edges the graph has, and its greatest core number.
pub(crate) fn summary_line(
    alloc: Global,
    graph: &FlatGraph,
    core: &[u32],
) -> Result<String, NoMemory>
    ensures { IfOk result (λ line. string_bytes line ≡ summary_line graph.now core.now) }
{
    let vertices = graph.vertices();
    let edges = graph.edges();
    let top = greatest(core);
    format!(in alloc; "vertices {vertices} edges {edges} top {top}\n")
}
