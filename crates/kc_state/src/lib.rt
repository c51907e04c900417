//! The text of a kept state, written and read.
//!
//! A state is what is kept of a stream of edges and batches: how many batches have ended, the ids in the order of their coming, and the graph
//! between the numbers that stand for them, with its core numbers and an order that certifies them. `specs/Texts` says its text: the version of
//! the format, the counts, a line `ID CORE PLACE` for each vertex, a line `A B` for each edge, and a last line with the check sum of the others.
//!
//! [`write_state`] writes the text in pieces, and takes no memory. [`read_state`] takes a text apart, lets `kc_cert` check the order, writes what
//! came of it again, and compares (`comparing`). So what it gives has just the text that was read. Else it tells the first line that is wrong.
//! No other state has that text, by the law of `laws`: so of a text that was written it gives what was written.
//! [`start_text`] is what a stream begins with that goes on from a state.
//!
//! The crate stands on `kc_lines` for pages, on `kc_stream` for ids, and on `kc_graph` and `kc_cert` for certified graphs.
#![tactic(auto)]

mod comparing;
mod edges;
mod fault;
mod kept_state;
pub mod laws;
mod reading;
mod start;
mod state_line;
mod summed_page;
mod text_lines;
mod vertices;
mod writing;

pub use fault::{ReadFault, StateFault, StateKind};
pub use kept_state::KeptState;
pub use reading::read_state;
pub use start::start_text;
pub use std::alloc::AllocError as NoMemory;
pub use writing::write_state;

/// The version of the format that is written and read.
pub const FORMAT_VERSION: u64 = 1;
