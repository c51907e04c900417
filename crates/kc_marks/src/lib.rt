//! What a search over vertices keeps of those that it has come to.
//!
//! `SearchMarks` is what the two planners of updates share: a mark for each vertex that the search has come to, and the list of the vertices that
//! it found too weak to stay where they are, in the order in which it did. What a mark says is each planner's own.
//!
//! `VertexMap` has the marks: the entries in the order in which their vertices came, and a `SparseArray`, which says where each vertex has its
//! own once they are more than a few. Most searches come to a vertex or two: their entries are looked through, and no array is allocated and
//! zeroed for each of them. A longer search goes from a vertex to its neighbours, whose numbers are often near its own, so an array by vertex
//! numbers serves it better than a hash table, which scatters them; and only the pages of it are there that have an entry, so that such a
//! search stays small in a large graph. The crate stands on the standard library alone.
#![tactic(auto)]

mod map;
mod seen;
mod sparse;

pub use map::{VertexEntry, VertexMap};
pub use seen::SearchMarks;
pub use sparse::{PAGE, SparseArray};
