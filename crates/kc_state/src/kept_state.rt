//! A state that was read.
use kc_graph::Lawful;
use kc_stream::Ids;

/// What is kept of a stream: how many batches have ended, the ids in the order of their first coming, and the graph between the numbers that
/// stand for them, with its core numbers and an order that certifies them.
#[derive(Drop)]
pub struct KeptState {
    pub batches: u64,
    pub ids: Ids,
    pub lawful: Lawful,
}
