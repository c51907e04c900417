//! The outside of a run: where its bytes come from and where they go.
//!
//! A run reads from a [`source::Source`] and writes to a [`sink::Sink`]. Both count their faults, so that a
//! caller's contract can say that an answer of failure came only where the outside failed, and both may tell
//! their bytes, so that a contract can say what was read and what was written. The ones in memory tell them
//! ([`mem_source`], [`mem_sink`]). The ones over the readers and writers of std ([`std_source`], [`std_sink`])
//! count each fault once, and tell the bytes that the reader or writer tells itself; the streams of the operating
//! system tell none.
//!
//! Promised: [`source::read_all`] gives all bytes up to the end or says why not, and takes at most one byte more than
//! it may give; [`sink::write_all`] puts out a whole text or a prefix of it, and offers all that is left at each turn.
//! The crate stands on std alone, and on `thiserror` for one error type.
#![tactic(auto)]

mod calls;
mod interrupted;
pub mod mem_sink;
pub mod mem_source;
mod pieces;
pub mod sink;
pub mod source;
pub mod std_sink;
pub mod std_source;

/// Want of memory.
pub use std::alloc::AllocError as NoMemory;

/// A read or a write that the outside did not do. It moved no byte.
#[derive(Clone, Copy, Debug, PartialEq, Eq)]
pub struct Failed;
