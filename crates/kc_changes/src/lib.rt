//! The ids whose core numbers a batch changes, and the lines that tell of them.
//!
//! An id has a core number before a batch and after it, or none before where it is new. [`IdChange`] says both of an id of which they are
//! not the same, and [`put_changes`] puts the lines about such ids in ascending order: their numbers, and who came into a core or left it.
//! `specs/Changed` says which ids these are and what is told of them, of any numbers before and after. The lines are those of `kc_reply`.
#![tactic(auto)]

mod id_change;
mod pieces;
mod show;
mod telling;

pub use id_change::IdChange;
pub use show::Show;
pub use std::alloc::AllocError as NoMemory;
pub use telling::put_changes;
