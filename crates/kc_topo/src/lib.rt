//! An acyclic graph whose vertices stand in one shared list in topological order, while arcs are added: any thread asks without a lock
//! which of two vertices stands first.
//!
//! An arc is entered by one note of the list's log. The notes of the shared words are those of edges: two ends, the lesser first, and a bit
//! that says whether the edge comes or goes. No arc ever goes, so here that bit has the direction: it is set where the arc leads from the
//! lesser end to the greater (`note_of_arc`). A note of its own would need another rule of the words, with all its proofs again.
//!
//! `Arcs`, the state behind the lock, keeps the list topological for the arcs: after
//! each prefix of the log each arc that was entered leads to a vertex that stands later. To add an arc from a to b where b stands before
//! a, a search goes from b along arcs through the vertices that stand before a; these then move to right after a, in their order, from
//! the last to the first. The search is the forward half of that of Pearce and Kelly (2006). Where it meets a, the arc would close a
//! cycle, which is answered as a walk.
//!
//! `specs/Arcs.antt` has arcs, walks and topological lists, `specs/Dags.antt` what contracts see of the graph and of a call.
#![tactic(auto)]

pub mod added;
pub mod arcs;
pub mod dag;
pub mod fault;
mod reached;
mod searching;
mod successors;

pub use added::Added;
pub use arcs::Arcs;
pub use dag::Dag;
pub use fault::DagFault;
pub use std::alloc::AllocError as NoMemory;
