//! What a batch has come to.
use kc_table::Pass;
use kc_workers::WorkerShare;

/// All updates of a batch were entered.
#[derive(Drop)]
pub struct BatchDone {
    /// What each worker has entered, in the order of the workers.
    pub shares: Vec<WorkerShare>,
    /// For each table that was ended because its versions were nearly spent, oldest first, a pass that has seen its whole log.
    pub ended: Vec<Pass>,
}

/// Memory ran out in a batch. It keeps what was done by then.
#[derive(Drop)]
pub struct CutShort {
    /// What each worker has entered, in the order of the workers. Where there was no memory for this list it is empty, and nothing was
    /// entered.
    pub shares: Vec<WorkerShare>,
    /// For each table that was ended because its versions were nearly spent, oldest first, a pass that has seen its whole log.
    pub ended: Vec<Pass>,
}
