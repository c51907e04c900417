//! An update on its way into the journal.
use kc_graph::Plan;

/// The plan of an update, and the index that it is to be entered under.
#[derive(Clone, Copy)]
pub struct PlannedUpdate<'a> {
    pub index: u32,
    pub plan: &'a Plan,
}
