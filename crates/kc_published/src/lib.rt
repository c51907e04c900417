//! A journal whose core numbers are shown on a board: each publish costs the vertices whose numbers may be new, not the graph.
//!
//! `Published` owns a journal and the publisher of a board of `kc_snapshot`. `Published::enter` enters an update as `Journal::enter` does, and
//! notes which vertices leave their level by the moves of its plan. `Published::publish` then gives readers the journal's core numbers, which
//! are Seidman's for its edges, and looks at the noted vertices alone. Readers are in other threads, and never wait for an entry.
//!
//! `specs/Showings.antt` has what contracts see.
#![tactic(auto)]

mod moved;
mod shown;

pub use shown::Published;
