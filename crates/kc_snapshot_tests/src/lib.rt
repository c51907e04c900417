//! Tests of `kc_snapshot` and `kc_published`.
//!
//! Boards from their opening to their end, in one thread and in many. What a reader sees of a journal that is shown, before and after it is told.
//!
//! The crate has no code but its tests. They stand apart from those crates, whose own functions would be proved once more beside them.
#![tactic(auto)]

#[cfg(test)]
mod boards;
#[cfg(test)]
mod shown;
