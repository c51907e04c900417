//! What a search for the vertices that move goes by.

use kc_graph::Update;
use std::alloc::Global;

/// What a search for the vertices that move goes by. Each of its steps takes it, by value.
#[derive(Clone, Copy, Debug, Drop)]
pub struct Search {
    /// Where it takes memory.
    pub alloc: Global,
    /// The update that it plans.
    pub update: Update,
    /// The lesser core number of the two ends.
    pub level: u32,
}
