//! A batch and the indices of its updates.
use kc_graph::Update;

/// A batch of updates. The one at place `i`, from 0, has the index `first + i`.
#[derive(Clone, Copy)]
pub struct IndexedBatch<'a> {
    pub first: u32,
    pub updates: &'a [Update],
}
