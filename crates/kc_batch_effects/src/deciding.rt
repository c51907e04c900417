//! The updates that decide, among updates that may name an edge again.
ghost use Rattle.std.specs.Prelude.{◌≡◌, ◌<◌, ◌+◌, ◌^◌, ℕ, All, IfOk, length, map};
ghost use Rattle.kc_graph.specs.SimpleGraph.{SimpleGraph};
ghost use Rattle.kc_text.specs.Inputs.{IsBatch, parts_of};
ghost use Rattle.kc_text.specs.LastUpdates.{last_of_edges};
ghost use Rattle.kc_batch_effects.specs.Batches.{graph_after_batch};
ghost use Rattle.kc_batch_effects.specs.Updates.{after_updates};

use kc_graph::Update;
use kc_text::{Batch, NoMemory};
use std::alloc::Global;

/// The updates that decide, among updates that may name an edge again: of each edge that they name the last update, in the order of
/// these last ones. They name no edge twice, so they are a batch, and it doesn't matter in which order they are entered. The graph after
/// this batch is the one that all updates leave, made one by one in their order.
///
/// It sorts a number for each update, and takes memory for a few more. `NoMemory` comes only where there is none.
///
/// # Example
///
/// ```rust
/// use kc_batch_effects::decide;
/// use kc_graph::Update;
///
/// let add = Update { add: true, u: 0, v: 1 };
/// let other = Update { add: true, u: 1, v: 2 };
/// let remove = Update { add: false, u: 0, v: 1 };
/// let batch = decide(alloc, &[add, other, remove])?;
/// let updates = batch.updates.as_slice(); // other, remove
/// let overruled = batch.overruled; // 1: `add` names the same edge as `remove`, which comes later
/// ```
pub fn decide(alloc: Global, updates: &[Update]) -> Result<Batch, NoMemory>
    requires { length updates.now < 2 ^ 32 }
    ensures deciding { IfOk result (λ batch. batch.updates.items ≡ last_of_edges updates.now) }
    ensures overruled { IfOk result (λ batch. length batch.updates.items + batch.overruled ≡ length updates.now) }
    ensures batch { IfOk result (λ batch. (vertices : ℕ) → All (λ update. update.v < vertices) updates.now
        → IsBatch vertices batch.updates.items) }
    ensures graph { IfOk result (λ batch. (g : SimpleGraph)
        → after_updates g updates.now ≡ graph_after_batch g (map parts_of batch.updates.items)) }
{
    kc_text::decide(alloc, updates)
}
