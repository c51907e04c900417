//! A member of a board's history.
use std::collections::LinkedList;

/// The core numbers of all vertices, as they were published at once. No value of it is made.
pub struct Member {
    pub core: LinkedList<u32>,
}
