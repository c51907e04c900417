//! Tests of `kc_batch_effects` and `kc_journal`.
//!
//! Counts of a batch that is entered in several orders, and the updates of a batch that decide. Updates of small graphs, a plan that is
//! stale, and a table whose versions are spent.
//!
//! The crate has no code but its tests. They stand apart from those crates, whose own functions would be proved once more beside them.
#![tactic(auto)]

#[cfg(test)]
mod counts;
#[cfg(test)]
mod deciding;
#[cfg(test)]
mod updates;
