//! The workers of a run.
ghost use Rattle.std.specs.Prelude.{◌≡◌, All, IfOk, vec_len};

use crate::worker::Worker;
use kc_graph::NoMemory;
use kc_table::{Pass, Words, split};
use std::alloc::Global;

/// So many workers of a table, each of which has seen what the pass has. `NoMemory` comes where there is none for them or for their marks.
/// The pass stays of use: it has seen what it had.
///
/// # Example
///
/// ```rust
/// use kc_graph::{Graph, decompose_owned};
/// use kc_shared::Parts;
/// use kc_workers::hire;
///
/// let graph = Graph::from_pairs(alloc, 4, &[(0, 1), (2, 3)])?;
/// let (parts, mut pass) = Parts::open(alloc, decompose_owned(alloc, graph)?, 0)?;
/// let workers = hire(alloc, &parts.words, &mut pass, 2)?;
/// let count = workers.len(); // 2
/// ```
pub fn hire(
    alloc: Global,
    words: &Words,
    pass: &mut Pass,
    count: u32,
) -> Result<Vec<Worker>, NoMemory>
    requires table { pass.old.table ≡ words.now }
    ensures count { IfOk result (λ workers. vec_len workers ≡ count) }
    ensures table { IfOk result (λ workers. All (λ w. w.table ≡ words.now) workers.items) }
    ensures seen { IfOk result (λ workers. All (λ w. w.log ≡ pass.old.log) workers.items) }
    ensures same { (pass.new.table ≡ pass.old.table) × (pass.new.log ≡ pass.old.log) }
{
    let mut workers = Vec::with_capacity(alloc, count as usize)?;
    for _ in 0..count {
        match Worker::new(alloc, words, split(words, pass)) {
            Ok(worker) => workers.push(worker)?,
            Err(_) => return Err(NoMemory),
        }
    }
    Ok(workers)
}
