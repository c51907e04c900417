//! Workers that enter updates into the state that they share.
//!
//! `update` enters one update. It plans without the journal's lock, over what the worker reads while others change it, and tries to enter
//! the plan; where that misses, it plans anew. After `MISSES` misses it plans under the lock, over the journal itself, where nothing can
//! be stale: so each update is entered, however many others are. Each miss that it tells of is true.
//!
//! `plan` makes one such plan, over a loose view that is made for it and ended. The plan is right wherever its answers are, and these were
//! read of what the worker's pass has seen then: so whoever holds the state has only to look whether their stamps are still those of now.
//! Where two loads of a word differed there is no plan, and the word and both its values are told.
//!
//! A `Worker` lives over many updates: what it has seen, and the marks that its views find their answers by. `hire` makes as many as a run
//! needs.
//! `specs/Updates.antt` says what one update leaves in the log, and what each fault means.
#![tactic(auto)]

mod assignment;
mod attempt;
mod done;
mod entering;
mod gate;
mod hiring;
mod planning;
mod share;
mod updating;
mod worker;
mod workplace;

pub use assignment::Assignment;
pub use done::Done;
pub use gate::{Gate, NoGate};
pub use hiring::hire;
pub use planning::plan;
pub use share::WorkerShare;
pub use updating::update;
pub use worker::Worker;
pub use workplace::Workplace;
