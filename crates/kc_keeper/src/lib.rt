//! The core numbers of a graph, kept right while edges come and go: one value, for one thread.
//!
//! `Keeper` is a graph with its core numbers and an order that certifies them. An update changes one edge, and the numbers and the order
//! with it, at the cost of the vertices that it concerns. Contracts see no log, no table and no stamps: only the graph, the numbers and
//! the order, and that the order certifies the numbers. What can't be done is refused by a value that says why, and then nothing has changed
//! but what it tells.
//!
//! A batch may also be made by others for the keeper, as `kc_keeper_workers` does: [`BatchMaker`] is who makes one, with the promise of
//! [`Keeper::apply`], and [`KeeperAlone`] is the keeper itself.
//!
//! `specs/Batches.antt` and `Causes.antt` have the words of the contracts. The crate stands on `kc_journal`, which it restarts by itself: so
//! its memory goes with the graph, not with the number of updates.
#![tactic(auto)]

mod at_once;
mod bulk;
mod changes;
mod earlier;
mod entering;
mod fault;
mod keeper;
mod maker;
mod members;

pub use at_once::tell_cores;
pub use changes::{Changes, CoreChange};
pub use entering::first_outside;
pub use fault::{ApplyFault, GrowFault, OpenFault, UpdateFault};
pub use keeper::Keeper;
pub use maker::{BatchMaker, KeeperAlone};
