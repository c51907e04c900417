//! Tests of the order list: `kc_words`, `kc_relabel`, `kc_list` and `kc_table`, then `kc_order`, and `kc_topo`.
//!
//! Words, labels, the list on one thread beside a plain list, and a table that one thread stores to while another loads. Comparisons beneath
//! puts, takes, splits and new labels, on one thread and on two, and between any two stores. Arcs on one thread, beside comparisons on another,
//! and beside three that were told of arcs.
//!
//! The crate has no code but its tests. They stand apart from those crates, whose own functions would be proved once more beside them.
#![tactic(auto)]

#[cfg(test)]
mod arcs;
#[cfg(test)]
mod cutting;
#[cfg(test)]
mod handing;
#[cfg(test)]
mod labels;
#[cfg(test)]
mod lists;
#[cfg(test)]
mod plain_lists;
#[cfg(test)]
mod racing;
#[cfg(test)]
mod racing_arcs;
#[cfg(test)]
mod slow_writer;
#[cfg(test)]
mod tables;
#[cfg(test)]
mod telling;
#[cfg(test)]
mod words;
