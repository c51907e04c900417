//! An id whose core number changes.

/// An id whose core number is another one than before, or that is new.
#[derive(Clone, Copy, Debug, Drop, Eq, PartialEq)]
pub struct IdChange {
    pub id: u32,
    /// The core number before; none where the id is new.
    pub before: Option<u32>,
    pub now: u32,
}
