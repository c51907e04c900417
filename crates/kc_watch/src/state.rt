//! What is kept of a stream behind the batches that have ended.
use kc_graph::Lawful;

/// What is kept of a stream behind the batches that have ended: how many these are, refused ones among them, up to the greatest number; the id of
/// each vertex; and the graph, with its core numbers and an order that certifies them.
#[derive(Drop)]
pub struct WatchedState {
    pub batches: u32,
    pub ids: Vec<u32>,
    pub lawful: Lawful,
}
