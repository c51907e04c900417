//! A stream that goes on from the graph of a kept state.
//!
//! [`open_state`] takes the text of a state, as it was saved (`kc_saving`). It reads it (`kc_state`), which shows that the text is that of a state,
//! whose order certifies its core numbers, and feeds a watcher (`kc_watch`) with the start text of the state. So the stream goes on as it does behind
//! a file with these edges.
//!
//! Promised: the watcher was fed just the start text of a state whose text this is, or nothing that is of use, and then it is told why. The law in
//! `laws` says what the start text means: behind the line `batch` that ends the start the account is that of the state.
#![tactic(auto)]

pub mod laws;
mod open;

pub use open::open_state;
pub use std::alloc::AllocError as NoMemory;
