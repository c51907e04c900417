//! The graph of the start.
ghost use Rattle.std.specs.Prelude.{◌≡◌, IfOk, length};
ghost use Rattle.std.specs.FinSet as set;
ghost use Rattle.kc_output.specs.Inputs.{IsSound};

use kc_graph::{Graph, NoMemory};
use kc_text::Input;
use std::alloc::Global;

/// The graph of the start, and the input without the edges that made it, which are dropped.
pub(crate) fn start_of(alloc: Global, input: Input) -> Result<(Graph, Input), NoMemory>
    requires { IsSound input }
    ensures graph { IfOk result (λ made. made.0 ≡ record { size = length input.ids.items; edges = set.from_list input.start.items }) }
    ensures size { IfOk result (λ made. length made.1.ids.items ≡ made.0.size) }
    ensures ids { IfOk result (λ made. made.1.ids ≡ input.ids) }
    ensures batches { IfOk result (λ made. made.1.batches ≡ input.batches) }
    ensures sound { IfOk result (λ made. IsSound made.1) }
{
    let Input {
        ids,
        start,
        batches,
    } = input;
    let graph = Graph::from_pairs(alloc, ids.len() as u32, &start)?;
    let start = Vec::new(alloc);
    let input = Input {
        ids,
        start,
        batches,
    };
    Ok((graph, input))
}
