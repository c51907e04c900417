//! What a batch did, counted from the receipts of its updates.
ghost use Rattle.std.specs.Prelude.{◌≡◌, ◌++◌, All, IfOk, OnOk, map};
ghost use Rattle.kc_batch.specs.Batches.{receipts_in};
ghost use Rattle.kc_run.specs.Outcomes.{outcome_of};

use kc_batch_effects::Outcome;
use kc_graph::NoMemory;
use kc_workers::{Done, WorkerShare};
use std::alloc::Global;

/// Appends what became of the updates of one share.
fn put_outcomes(outcomes: &mut Vec<Outcome>, done: &[Done]) -> Result<(), NoMemory>
    ensures { OnOk result (outcomes.new.items ≡ outcomes.old.items ++ map (λ d. outcome_of d.receipt) done.now) }
{
    for one in done {
        let receipt = one.receipt;
        outcomes.push(Outcome {
            index: receipt.index,
            applied: receipt.applied,
        })?;
    }
    Ok(())
}

/// What became of the updates of all shares.
pub(crate) fn outcomes_of(alloc: Global, shares: &[WorkerShare]) -> Result<Vec<Outcome>, NoMemory>
    ensures { IfOk result (λ outcomes. outcomes.items ≡ map outcome_of (receipts_in shares.now)) }
{
    let mut outcomes = Vec::new(alloc);
    for share in shares {
        put_outcomes(&mut outcomes, &share.done)?;
    }
    Ok(outcomes)
}
