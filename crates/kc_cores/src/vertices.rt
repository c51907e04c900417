//! What is known of the vertices of a graph.
use crate::labels::Labels;

/// For each vertex what is written for it, and its core number.
#[derive(Clone, Copy)]
pub(crate) struct Vertices<'a> {
    pub(crate) labels: &'a Labels,
    pub(crate) core: &'a [u32],
}
