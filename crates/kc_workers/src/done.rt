//! An update that was entered.
use kc_journal::Receipt;
use kc_shared::Missed;

/// Where an update was entered, and the plans for it that were lost before, oldest first.
#[derive(Debug, Drop)]
pub struct Done {
    pub receipt: Receipt,
    pub misses: Vec<Missed>,
}
