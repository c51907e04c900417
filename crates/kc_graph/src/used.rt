//! What a plan has read.
use crate::neighbours::Neighbours;

/// The neighbours of `vertex`, ascending, after the first `at` entries.
#[derive(Debug, Drop)]
pub struct UsedEdges {
    pub vertex: u32,
    pub at: u32,
    pub neighbours: Neighbours,
}

/// The core number of `vertex`, under the stamp that it was read with.
#[derive(Clone, Copy, Debug, Drop, Eq, PartialEq)]
pub struct UsedPlace {
    pub vertex: u32,
    pub stamp: u32,
    pub core: u32,
}

/// Whether `x` stood before `y` in the order.
#[derive(Clone, Copy, Debug, Drop, Eq, PartialEq)]
pub struct UsedOrder {
    pub x: u32,
    pub y: u32,
    pub before: bool,
}

/// All that a plan has read, each list in the order of asking.
#[derive(Debug, Drop)]
pub struct Used {
    pub edges: Vec<UsedEdges>,
    pub places: Vec<UsedPlace>,
    pub orders: Vec<UsedOrder>,
}
