//! What one worker did of a batch.
use crate::done::Done;
use kc_journal::Receipt;

/// The updates of a batch that this worker entered.
#[derive(Debug, Drop)]
pub struct WorkerShare {
    pub worker: u32,
    /// Each update that was entered and told, with the plans for it that were lost before.
    pub done: Vec<Done>,
    /// An update that was entered when memory ran out, and whose lists could not be published. There is none where a batch was entered whole.
    pub untold: Option<Receipt>,
}
