//! An update that was entered.

/// An update that was entered: an edge was to be added or removed.
///
/// The entries of a run are numbered from 1, over all its tables.
#[derive(Clone, Copy, Debug, Drop, Eq, PartialEq)]
pub struct Entry {
    /// The number of the update in the input, from 0.
    pub index: u32,
    /// Whether the edge is added, or else removed.
    pub add: bool,
    /// The lesser end.
    pub u: u32,
    /// The greater end.
    pub v: u32,
}
