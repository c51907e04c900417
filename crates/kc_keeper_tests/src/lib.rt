//! Tests of `kc_keeper` and `kc_keeper_workers`: batches that a keeper makes alone, and that several workers make for it.
//!
//! The crate has no code but its tests. They stand apart from those crates, whose own functions would be proved once more beside them.
#![tactic(auto)]

#[cfg(test)]
mod batches;
#[cfg(test)]
mod bulk;
#[cfg(test)]
mod long;
#[cfg(test)]
mod makers;
#[cfg(test)]
mod paying;
#[cfg(test)]
mod refused;
#[cfg(test)]
mod twins;
