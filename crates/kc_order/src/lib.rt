//! The shared order list: any thread asks which of two items stands first, without a lock, while one writer puts, takes, splits groups
//! and spreads labels.
//!
//! The list is Dietz and Sleator's (1987) in its two-level form; `kc_list` has it on one thread, and here each of its writes is one
//! store of a word of `kc_table`. A comparison is a *double collect*: it loads the words of both items and of their groups, and then
//! the same four again. No value ever comes back to one of these words, so equal values held all four words at one moment, and the
//! answer is how the list stood then: after one prefix of the writer's log that holds all that the caller had seen.
//!
//! Comparisons, loads and collects take no lock and no memory. Each contract counts the loads and splits of the caller's pass: a sure
//! answer takes eight loads, so that pass collects twice and no more. Loads of a pass that was split off are counted by no clause.
//! Nothing is said of progress: a comparison may answer `Again` each time.
#![tactic(auto)]

pub mod answer;
pub mod collect;
pub mod fault;
pub mod laws;
pub mod shared;
mod storing;
pub mod writer;

pub use answer::Answer;
pub use collect::{Collect, first_collect, precedes, second_collect};
pub use fault::OrderFault;
pub use shared::SharedOrder;
pub use std::alloc::AllocError as NoMemory;
pub use writer::Writer;
