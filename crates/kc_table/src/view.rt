//! What a seat knows of a table, and which steps it has made. No value of a view is ever made: it exists in the proofs alone.
use kc_words::Shape;
use std::collections::LinkedList;

/// One store of the writer.
pub struct Event {
    pub word: u32,
    pub value: u64,
}

/// What a table is told once, when it is opened.
#[derive(Drop)]
pub struct Opening {
    pub shape: Shape,
    pub words: Vec<u64>,
}

/// What a seat knows: the table's shape and opening words, the stores that it has seen, what it was told of since its last load, and how
/// many loads and splits it has made.
pub struct Knowledge {
    pub spent: bool,
    pub writes: bool,
    pub shape: Shape,
    pub opening: LinkedList<u64>,
    pub seen: LinkedList<Event>,
    pub kept: LinkedList<LinkedList<Event>>,
    pub loads: u64,
    pub splits: u64,
}
