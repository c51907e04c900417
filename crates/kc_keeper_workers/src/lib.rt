//! A batch of a keeper's updates, made by several workers.
//!
//! `apply_with` makes a batch with the very promise of `Keeper::apply`: no clause tells which of the two was called. By `pays` it asks
//! workers to enter it, or the keeper alone, which starts no thread. `apply_by_workers` asks the workers in any case.
//!
//! [`RuntimeWorkers`] is who makes batches so for a caller that takes any `kc_keeper::BatchMaker`, and has no thread of its own.
//!
//! The workers enter the batch in a run of its own, which begins with a copy of the keeper's state. Where it was entered whole, the keeper
//! goes on from the state after it. A batch that is cut short leaves some of its updates, and not the first ones; so that state is then
//! dropped, and the keeper, which is as it was, makes the batch alone.
//!
//! `specs/Paying.antt` says when workers are asked, `specs/Working.antt` what their run leaves.
#![tactic(auto)]

mod applying;
mod paying;
mod runtime_workers;
mod telling;
mod workforce;
mod working;

pub use applying::{apply_by_workers, apply_with};
pub use paying::{FEWEST_UPDATES, FEWEST_WORKERS, LEAST_SHARE, MOST_SHARE, pays};
pub use runtime_workers::RuntimeWorkers;
pub use workforce::{RuntimeThreads, Workforce};
