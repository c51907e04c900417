//! What became of one update.

/// Whether an update of a batch changed the graph.
#[derive(Clone, Copy, Debug, Eq, PartialEq)]
pub struct Outcome {
    /// The number of the update in the input, from 0.
    pub index: u32,
    /// Whether its edge came, or went.
    pub applied: bool,
}
