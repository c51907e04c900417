//! The workers of a runtime, who make batches of keepers.
use crate::workforce::Workforce;
use kc_graph::Update;
use kc_keeper::{ApplyFault, BatchMaker, Changes, Keeper};
use std::alloc::Global;

/// Workers, who make a batch where it pays, and else the keeper alone, as [`apply_with`] does.
///
/// A method of a trait does not know that threads may share a runtime. So the workers keep it as a fact.
/// The program `cores` shows its use: a function that is generic over its [`Workforce`] makes the workers, over the [`RuntimeThreads`] that
/// `main` hands to it, and asks them for batches by `make_batch`.
///
/// [`RuntimeThreads`]: crate::RuntimeThreads
#[derive(Drop)]
pub struct RuntimeWorkers<'a, F: Workforce> {
    workforce: &'a F,
    ghost shareable: { ∥ F.shareable workforce.now ∥₁ },
}

impl<'a, F: Workforce> RuntimeWorkers<'a, F> {
    /// The workers of these threads. No thread is started.
    pub fn new(workforce: &'a F) -> RuntimeWorkers<'a, F>
        requires shareable { ∥ F.shareable workforce.now ∥₁ }
    {
        RuntimeWorkers { workforce }
    }
}

impl<F: Workforce> BatchMaker for RuntimeWorkers<'_, F> {
    fn make_batch(
        &self,
        alloc: Global,
        workers: u32,
        keeper: &mut Keeper,
        updates: &[Update],
        changes: &mut Changes,
    ) -> Result<(), ApplyFault> {
        self.workforce
            .apply_with(alloc, workers, keeper, updates, changes)
    }
}
