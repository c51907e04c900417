//! What a batch of updates does to a graph, in whatever order it is entered.
//!
//! A batch names no edge twice, so what it does is said of it as a set: the edges after it are those before it, with its adds and without
//! its removes, and an update is effective or kept by the edges before the batch (`specs/Batches.antt`). Workers enter the updates one
//! after the other, in an order that nobody knows beforehand, and each is told whether its entry changed the graph that it met. The laws
//! here say that both come to the same: the graph in the end, whether each update was applied, and the counts.
//!
//! `specs/Entered.antt` says when entries are those of a batch, and `specs/Outcomes.antt` when what is told is told of each update once.
//!
//! Updates that may name an edge again mean something only in their order, and then the last update of an edge decides. [`decide`] finds
//! these last ones: they are a batch, and leave the graph that all updates leave, one by one. [`count`] counts what became of a batch.
//! There is no other code. The crate makes no table and starts no thread; it stands on `kc_agree`, `kc_table`, `kc_text`, `kc_graph`,
//! `kc_words` and `kc_lists`.
#![tactic(auto)]

mod counts;
mod deciding;
pub mod laws;
mod outcome;

pub use counts::{Counts, count};
pub use deciding::decide;
pub use kc_text::{Batch, NoMemory};
pub use outcome::Outcome;
