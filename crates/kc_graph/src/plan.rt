//! Plans of updates.
use crate::update::Update;
use crate::used::Used;

/// What an update does to core numbers and order.
#[derive(Debug, Drop)]
pub enum Moves {
    /// Nothing: the edge to be added is there, or the edge to be removed is not.
    Kept,
    /// The edge changes, and nothing else.
    Plain,
    /// For each pair `(x, w)` of `shifts` in turn, `x` is put right after `w`. Then the vertices of `rise`, which have the core number
    /// `level`, get the next one, and become the front of that level in this order.
    Rise {
        level: u32,
        rise: Vec<u32>,
        shifts: Vec<(u32, u32)>,
    },
    /// The vertices of `fall`, which have the core number `level`, get the one below, and become the back of that level in this order.
    Fall {
        level: u32,
        fall: Vec<u32>,
    },
}

/// An update with the moves that keep core numbers and order right, and what these moves rest on.
#[derive(Debug, Drop)]
pub struct Plan {
    pub update: Update,
    pub used: Used,
    pub moves: Moves,
}
