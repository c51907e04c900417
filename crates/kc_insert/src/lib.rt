//! The plan of an update that adds an edge.
//!
//! Where an edge comes, only vertices of the lesser core number of its two ends can gain, and each gains one (Zhang, Yu, Zhang and Qin
//! 2017). `plan` goes through the order from the end that stands first: a vertex of that core number, the level, is a candidate where it
//! has more than that many neighbours that are higher, behind it or candidates before it. Where one is found that is not, the candidates
//! beside it lose by it, and those that are then too weak are evicted and put behind it. What is left at the end rises. It asks a `View`
//! of `kc_view` one list, core number or order at a time, and looks at nothing but what it asks.
//!
//! Where all answers are those of one certified state, the plan passes the local test of `kc_cert` there and moves only vertices that
//! walks along the order reach from that end; no clause says that it needs each of these moves. It names only vertices whose lists were
//! read. It returns for every view, also where the answers fit no state. `specs/Searching.antt` says what the search keeps true on its
//! way, in a state that agrees with the answers so far; `Turns.antt` what the code's steps make of queue, candidates and evicted, and
//! `Rising.antt` what holds of these for every view. The crate stands on `kc_view`, `kc_marks` and `kc_graph`, and its proofs on `kc_cert`.
#![tactic(auto)]

mod ahead;
mod insertion;
mod losing;
mod raising;
mod rising;
mod row;
mod settling;
mod turns;

pub use insertion::plan;
