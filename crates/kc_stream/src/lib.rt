//! The lines of a stream of edges and batches, gathered as they come: the ids in the order of their first coming, the edges of the start,
//! and the updates of the batch that is open.
//!
//! A stream has the lines of `kc_text`: edges, and behind them batches of changes. Among the changes a line may also ask. A stream has no
//! end that anyone waits for, so what is kept is that of the graph and of one batch, and not of the stream. `specs/Asking` says which line
//! is which question, `specs/Ids` which number stands for an id, `specs/Numbers` where it is kept, `specs/Hearing` what lines come to, one after another, and `specs/Ended`
//! which bytes are lines that have ended. [`read_stream_line`] reads a line, [`Gathered`] takes lines, and [`ended_len`] cuts a piece of a
//! stream behind its last line end. The crate stands on `kc_text` for what a line says, and on `kc_graph` for updates.
#![tactic(auto)]

mod bad_lines;
mod ended;
mod gathered;
mod id_numbers;
mod ids;
mod question;
mod stream_line;

pub use bad_lines::BadLines;
pub use ended::ended_len;
pub use gathered::Gathered;
pub use ids::Ids;
pub use question::Question;
pub use std::alloc::AllocError as NoMemory;
pub use stream_line::{StreamLine, read_stream_line};
