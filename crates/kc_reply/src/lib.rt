//! The lines of the reply to a stream, each a value with two texts: words with blanks between them, and a JSON object.
//!
//! A [`ReplyLine`] says what one line tells, and [`put_reply_line`] puts it behind a text, as its [`ReplyFormat`] says. `specs/Facts` has what a
//! line tells as a value of its own, and `specs/Texts` the text of it in each format: so what is told is said once, and no format tells more
//! than the other. The lines about the graph and about batches are those of `kc_report`. In both formats a line ends with a newline and has no other.
//!
//! The crate knows no stream and computes no core number. It stands on `kc_report` for the line of a run, on `kc_text` for what is wrong with a
//! line, and on `itoa`, which prints a number.
#![tactic(auto)]

mod json;
pub mod laws;
mod level_size;
mod pieces;
mod put;
mod reply_format;
mod reply_line;
mod standing;
mod words;

pub use level_size::LevelSize;
pub use put::put_reply_line;
pub use reply_format::ReplyFormat;
pub use reply_line::ReplyLine;
pub use standing::Standing;
pub use std::alloc::AllocError as NoMemory;
