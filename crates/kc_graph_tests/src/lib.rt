//! Tests of `kc_graph`, `kc_flat`, `kc_cert`, `kc_shard` and `kc_hindex`: graphs, core numbers and certificates of small graphs with answers
//! worked out by hand, graphs that threads make, rounds on shards, and rounds of h-indices beside the decomposition by buckets.
//!
//! The crate has no code but its tests. They stand apart from those crates, whose own functions would be proved once more beside them.
#![tactic(auto)]

#[cfg(test)]
mod by_threads;
#[cfg(test)]
mod certificates;
#[cfg(test)]
mod flat;
#[cfg(test)]
mod graphs;
#[cfg(test)]
mod rounds;
#[cfg(test)]
mod shards;
