//! What `parse` gives: the ids, the edges at the start, and the batches.
use crate::batch::Batch;

/// A graph and the batches that change it. The vertices are the numbers from 0 that stand for the ids in ascending order.
#[derive(Drop)]
pub struct Input {
    /// Every id that the text names, ascending. The vertex `i` stands for `ids[i]`.
    pub ids: Vec<u32>,
    /// The edges before the first batch, ascending, each once and with its lesser end first.
    pub start: Vec<(u32, u32)>,
    /// The batches in the order of the text. Each line of a batch is an update of the pair that it names.
    pub batches: Vec<Batch>,
}
