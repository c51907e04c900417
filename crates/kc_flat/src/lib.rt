//! A simple undirected graph in one array, and its core numbers by bins.
//!
//! A `FlatGraph` never changes once it is made. The neighbours of all vertices lie in one array, those of each vertex in ascending order
//! behind those of the vertices before it, and a number for each vertex tells where its part ends. It is made of pairs of vertices in any
//! order: their ends are counted, put to their vertices, and sorted where they lie, a vertex at a time. `from_pairs_in` has several threads
//! do so, each for a range of the vertices. `decompose` takes a vertex of least remaining degree again and again, and keeps the vertices in
//! bins of one array (Batagelj and Zaversnik 2003): what it needs beside the graph grows with the vertices alone.
//!
//! In clauses the graph is the `SimpleGraph` of `kc_graph`, so its definitions say what neighbours, core numbers and certificates are.
//! `specs/Pairs.antt` says what is asked of pairs, `specs/Listing.antt` how the edges of a graph are listed, `specs/Parts.antt` how the array is
//! cut, `specs/Ranges.antt` what a range of the vertices has of it, `specs/Bins.antt` what the bins keep, and `specs/Holders.antt` who is in a
//! bin. The crate stands on `kc_graph`, `kc_lists` and `kc_progress`, whose traits tell which core number is being taken.
#![tactic(auto)]

mod bins;
mod by_threads;
mod gathering;
mod graph;
mod making;
mod packing;
mod parts;
mod peeling;
mod ranges;
mod sorting;

pub use by_threads::from_pairs_in;
pub use graph::FlatGraph;
pub use kc_graph::NoMemory;
pub use making::{GraphMaker, OneThread};
pub use peeling::{Decomposition, core_numbers, decompose, decompose_telling};
