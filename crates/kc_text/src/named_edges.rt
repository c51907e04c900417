//! What a text tells but for its batches: the ids, and the edges of its lines as they come.

/// The ids of a text and the edges of its edge lines. The vertices are the numbers from 0 that stand for the ids in ascending order.
#[derive(Drop)]
pub struct NamedEdges {
    /// Every id that the text names, ascending. The vertex `i` stands for `ids[i]`.
    pub ids: Vec<u32>,
    /// The edges in the order of their lines, each with its lesser end first. Loops are left out; an edge that is told again stands again.
    pub edges: Vec<(u32, u32)>,
}
