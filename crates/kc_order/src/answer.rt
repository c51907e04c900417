//! What a comparison answers. Each answer is tied to its cause by the contract of `precedes`.
use kc_words::Again;

/// How two items stand in the list.
#[derive(Clone, Copy, Debug, Drop, Eq, PartialEq)]
pub enum Answer {
    /// The first stands before the second.
    Before,
    /// The first stands after the second.
    After,
    /// They are one item.
    Same,
    /// This item is out of the list.
    Absent { item: u32 },
    /// A word changed between its two loads, so nothing is known. Asking again may tell more.
    Again(Again),
}
