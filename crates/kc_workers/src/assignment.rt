//! One update that a worker is to enter.
use kc_graph::Update;

/// An update under its index, and the number of the worker that is to enter it.
#[derive(Clone, Copy, Debug)]
pub struct Assignment {
    /// The worker's number, for the gate.
    pub worker: u32,
    pub index: u32,
    pub update: Update,
}
