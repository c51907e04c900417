//! Tests of `kc_agree` and `kc_stripes`.
//!
//! The first stale stamp at each place, and histories made by hand. Lists that one thread publishes while another reads.
//!
//! The crate has no code but its tests. They stand apart from those crates, whose own functions would be proved once more beside them.
#![tactic(auto)]

#[cfg(test)]
mod histories;
#[cfg(test)]
mod publishing;
#[cfg(test)]
mod stamps;
