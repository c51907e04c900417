//! A batch of updates, of which one decides for each edge.
use kc_graph::Update;

/// The updates of a batch that decide, and how many others they overrule. A batch may name an edge again, and then the last naming of it
/// decides.
#[derive(Drop)]
pub struct Batch {
    /// For each edge that the batch names the update of its last naming, in the order of these last namings. An update that changes
    /// nothing, since its edge is there already or isn't there, stands among them.
    pub updates: Vec<Update>,
    /// How many updates of the batch a later one of the same edge overrules.
    pub overruled: u32,
}
