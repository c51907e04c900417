//! Simple undirected graphs, their core numbers, and the order that certifies them.
//!
//! The core number of a vertex is the greatest k for which some set of vertices has it, and gives each member at least k neighbours
//! inside (Seidman 1983). `Graph` is a set of edges that come and go, made edge by edge or in one go. Its lists of neighbours change where
//! they lie. A `SharedGraph` has counted lists, which others hold while it changes. `decompose` gives the core numbers of a graph with
//! an order of its vertices that certifies them (Zhang, Yu, Zhang and Qin 2017), and `core_numbers` gives them alone. `Lawful` holds a
//! graph with certified numbers, so that whoever is handed one needs no proof of its own.
//!
//! `specs/SimpleGraph.antt`, `Core.antt`, `Certificate.antt` and `Edges.antt` say what these words mean; the other files there serve
//! the crate's own proofs. The four laws below have no code. Certified numbers are the core numbers; a graph has one list of core numbers
//! and no more; it has one; and vertices without edges may be added to a certified state. The crate stands on `kc_lists` and the standard
//! library.
#![tactic(auto)]

mod ascending;
mod bulk;
pub mod counting;
pub mod gathering;
mod graph;
mod lawful;
mod neighbours;
mod peeling;
mod plan;
mod row;
mod rows;
mod shared;
mod tidying;
mod update;
mod used;

ghost use Rattle.std.specs.Prelude.{◌≡◌, ◌≤◌, ◌<◌, ◌+◌, ℕ, List, length, slice_index};
ghost use Rattle.kc_graph.specs.SimpleGraph.{SimpleGraph};
ghost use Rattle.kc_graph.specs.Core.{AreCoreNumbers};
ghost use Rattle.kc_graph.specs.Certificate.{Certifies};
ghost use Rattle.kc_graph.specs.Lawful.{IsCertified, Ranked};
ghost use Rattle.kc_graph.specs.Growing.{HasItsEnds, with_more, with_vertices};

pub use bulk::{Edge, Listed, listed_edges_are_the_edges};
pub use graph::Graph;
pub use lawful::Lawful;
pub use neighbours::Neighbours;
pub use peeling::{core_numbers, decompose, decompose_owned, greatest};
pub use plan::{Moves, Plan};
pub use shared::{ListsAfter, SharedGraph};
pub use std::alloc::AllocError as NoMemory;
pub use update::Update;
pub use used::{Used, UsedEdges, UsedOrder, UsedPlace};

/// Numbers that an order certifies are the core numbers.
pub fn certified_numbers_are_core_numbers()
    ensures { (g : SimpleGraph) (core order : List ℕ) → Certifies g core order → AreCoreNumbers g core }
{}

/// A graph has no two lists of core numbers.
pub fn core_numbers_are_unique()
    ensures { (g : SimpleGraph) (first second : List ℕ) → AreCoreNumbers g first → AreCoreNumbers g second → first ≡ second }
{}

/// Every graph has core numbers, and an order that certifies them.
pub fn certified_numbers_exist()
    ensures { (g : SimpleGraph) → (core : List ℕ) × (order : List ℕ) × Certifies g core order }
{}

/// A certified state with more vertices, which have no edges and come first in the order, is certified too. The vertices of before keep
/// their numbers, and the new ones have 0.
pub fn grown_states_are_certified()
    ensures certified { (count : ℕ) (s : Ranked) → HasItsEnds s.graph → IsCertified s → IsCertified (with_more count s) }
    ensures graph { (count : ℕ) (s : Ranked) → (with_more count s).graph ≡ with_vertices (s.graph.size + count) s.graph }
    ensures old_numbers { (count : ℕ) (s : Ranked) (v : ℕ) → v < length s.core → slice_index (with_more count s).core v ≡ slice_index s.core v }
    ensures new_numbers { (count : ℕ) (s : Ranked) (v : ℕ) → length s.core ≤ v → v < length s.core + count → slice_index (with_more count s).core v ≡ 0 }
{}
