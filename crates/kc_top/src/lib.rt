//! A whole run: bytes in, core numbers out.
//!
//! [`run`](run::run) reads a graph and its batches of updates from a source, writes a line about the graph, a line about
//! each batch and the core numbers after the last to a sink, and writes one line to a second sink where it can't. Its promise is
//! one record, `EndedFor`, with a field for each clause (`specs/EndedFor.antt`): what the output is, by `kc_output`; what the run
//! leaves of its tables and receipts (`specs/Leaving.antt`); when each other status comes, and what was written then
//! (`specs/Outcome.antt`, `specs/ErrLines.antt`); and that a fault of the source or of the output comes at its own status alone
//! (`specs/Faults.antt`).
//!
//! The graph is decomposed once, and from then on workers keep its core numbers by the journal. The contract says that the
//! journal's tables hold the updates and were certified all along. It does not say that nothing is computed anew beside them.
//!
//! [`run_in_memory`](memory::run_in_memory) is the same run over the source and the sinks in memory, where every
//! clause speaks of bytes that are known. The crate stands on `kc_io`, `kc_text`, `kc_report` and `kc_output`.
#![tactic(auto)]

mod ending;
pub mod memory;
mod reading;
pub mod run;
mod streams;
pub mod words;

ghost use Rattle.std.specs.Prelude.{◌≡◌};
ghost use Rattle.kc_top.specs.Statuses.{exit_of};

pub use kc_output::{Setting, Show, Start};
pub use streams::Streams;

/// How a run ended.
#[derive(Clone, Copy, Debug, PartialEq, Eq)]
pub enum Status {
    /// The whole output was written.
    Done,
    /// The words are not right. Nothing was read.
    Usage,
    /// The input is refused.
    Refused,
    /// The source failed.
    ReadFault,
    /// The sink of the output failed.
    WriteFault,
    /// There was no memory.
    NoMemory,
}

/// The number that the program ends with.
pub fn exit_number(status: Status) -> u8
    ensures { result ≡ exit_of status }
{
    match status {
        Status::Done => 0,
        Status::Usage => 2,
        Status::Refused => 3,
        Status::ReadFault => 4,
        Status::WriteFault => 5,
        Status::NoMemory => 6,
    }
}
