//! What a run leaves.
ghost use Rattle.std.specs.Prelude.{◌≡◌, ◌++◌, IfErr, OnErr, OnOk};
ghost use Rattle.kc_run.specs.Runs.{IsEmpty};

use kc_batch::{BatchDone, CutShort};
use kc_table::Pass;
use kc_workers::WorkerShare;
use std::alloc::Global;

/// The shares of all batches and the tables of a run. Nothing is read from it while the run goes on.
#[derive(Drop)]
pub struct Ran {
    /// What each worker has entered: for each batch in turn one share a worker, in the order of the workers.
    pub shares: Vec<WorkerShare>,
    /// A pass of each table that was used, oldest first. Each has seen the whole log of its table.
    pub tables: Vec<Pass>,
}

impl Ran {
    /// Nothing yet.
    pub fn new(alloc: Global) -> Ran
        ensures { IsEmpty result }
    {
        Ran {
            shares: Vec::new(alloc),
            tables: Vec::new(alloc),
        }
    }

    /// Takes over the shares of a batch, and the tables that were ended in it. Where there is no memory for them it stays as it was, and
    /// they are given back.
    pub(crate) fn take_over(&mut self, done: BatchDone) -> Result<(), CutShort>
        ensures shares { OnOk result (self.new.shares.items ≡ self.old.shares.items ++ done.shares.items) }
        ensures tables { OnOk result (self.new.tables.items ≡ self.old.tables.items ++ done.ended.items) }
        ensures same { OnErr result ((self.new.shares.items ≡ self.old.shares.items) × (self.new.tables.items ≡ self.old.tables.items)) }
        ensures back { IfErr result (λ cut. (cut.shares.items ≡ done.shares.items) × (cut.ended.items ≡ done.ended.items)) }
    {
        let BatchDone {
            mut shares,
            mut ended,
        } = done;
        if self.shares.reserve(shares.len()).is_err() {
            return Err(CutShort { shares, ended });
        }
        if self.tables.append(&mut ended).is_err() {
            return Err(CutShort { shares, ended });
        }
        let Ok(()) = self.shares.append(&mut shares) else {
            unreachable!()
        };
        Ok(())
    }
}
