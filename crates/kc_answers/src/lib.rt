//! What a question in a stream is answered: a line about ids, their core numbers and their layers.
//!
//! [`put_answer`] puts the line that answers a question of `kc_stream`. The ids are those of `kc_stream`, and a core number stands at the
//! place of its id, as a layer does. Ids that were named since have no core number yet, so they are none for an answer. `specs/Answers` says
//! what the line tells, of any core numbers and layers; [`needs_layers`] tells whether it speaks of layers. The lines are those of `kc_reply`.
//! The crate stands on `kc_changes` for ids in ascending order, and on `kc_tally` for the order of vertices.
#![tactic(auto)]

mod answer;
mod finding;
mod listing;
mod numbers;
mod order;
mod sizes;

pub use answer::{needs_layers, put_answer};
pub use numbers::Numbers;
pub use std::alloc::AllocError as NoMemory;
