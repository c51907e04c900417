//! A table of words that one writer stores to and any thread loads from, without a lock.
//!
//! The writer's stores form a log, oldest first, which exists in the proofs alone. Each `Pass` has seen a prefix of it: a load answers
//! its word's value after a prefix that is no shorter than what the pass had seen before. The log is *legal*: `specs/Legal.antt` says
//! what may be stored next and what holds after each store, so every thread knows this of every prefix that it sees. What a log
//! makes of the table, its list, its entries and its sections, is in `specs/TableState.antt`.
//!
//! `open` alone takes memory, no call takes a lock, and a pass has no bytes. The crate stands on `atomic_table`, whose one fact about
//! all words and all seats is the rule of `specs/Rule.antt`, and on the formats of `kc_words`.
#![tactic(auto)]

pub mod entry;
pub mod laws;
pub mod name;
pub mod pass;
pub mod rule;
pub mod table;
pub mod view;
pub mod words;
pub mod writer_seat;

pub use entry::Entry;
pub use name::Name;
pub use pass::Pass;
pub use std::alloc::AllocError as NoMemory;
pub use table::{load, meet, open, shape, split, store, tell};
pub use words::Words;
pub use writer_seat::WriterSeat;
