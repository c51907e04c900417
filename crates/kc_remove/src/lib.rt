//! The plan of an update that removes an edge.
//!
//! Where an edge goes, only vertices of the lesser core number of its two ends can lose, and each loses one (Zhang, Yu, Zhang and Qin
//! 2017). `plan` visits the ends and goes on from each vertex that falls to its neighbours: a visited vertex keeps a support, its
//! neighbours that are as high and are not gone, and falls where that is less than its core number. It asks a `View` of `kc_view`
//! one list or core number at a time, and no order, and looks at nothing but what it asks.
//!
//! The fallen have their turns one after another, and are gone for a vertex once their turn has come to it. A vertex needs no more support
//! than its core number, so it looks at its neighbours from the front of its list only until that many support it, and goes on from there
//! when one of these is gone: a list of thousands is seldom looked through, and never more than once.
//!
//! Where all answers are those of one certified state, the plan passes the local test of `kc_cert` there and moves exactly the vertices
//! whose core number falls. It names only vertices whose lists were read, and asks no more than the ends of the edge and neighbours of
//! those that fall. It returns for every view, also where the answers fit no state. `specs/Sure.antt` of `kc_view` says the first of
//! this; `specs/Cascade.antt` says what the search keeps true on its way, in a state that agrees with the answers so far, and
//! `Falling.antt` what holds for every view. The crate stands on `kc_view`, `kc_marks` and `kc_graph`, and its proofs on `kc_cert`.
#![tactic(auto)]

mod falling;
mod removal;
mod support;
mod turns;

pub use removal::plan;
