//! A text that is read and a graph that is made by several threads.
//!
//! [`Hands`] are who does both for a caller that has no thread of its own: [`Threaded`] by the threads of a [`Crew`], and [`CallerAlone`] by
//! none but the caller's. Whoever does it gives the very same: the clauses are those of `kc_flat::GraphMaker` and `kc_text::PartsReader`, and
//! no clause tells how many threads there were.
//!
//! A thread may not be handed what is known of a type parameter of a trait's method. So the work of threads stands in free functions
//! below, `kc_flat::from_pairs_in` and `kc_text::read_parts_in`, and a [`RuntimeCrew`] is the runtime that these are given. That threads may
//! share it is a fact which [`Threaded`] keeps.
//!
//! The crate stands on `kc_flat` and `kc_text`, on `kc_graph` for want of memory, and on `rayon`, which counts the processors.
#![tactic(auto)]

mod crew;
mod hands;
mod threaded;

pub use crew::{Crew, MOST_THREADS, RuntimeCrew};
pub use hands::{CallerAlone, Hands};
pub use threaded::Threaded;
