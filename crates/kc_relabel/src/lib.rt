//! Even labels, and an order in which rising labels are replaced by other rising labels.
//!
//! `spread` gives labels at even distances. `schedule` lists the writes that turn one rising list
//! of labels into another, so that the labels rise after each single write: whoever reads them
//! between two writes finds the same order. No call takes memory. The crate stands on `kc_lists`.
#![tactic(auto)]

pub mod scheduling;
pub mod spreading;

pub use scheduling::schedule;
pub use spreading::spread;
