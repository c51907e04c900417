//! What words ask for: the words of a run of `cores`, read as a request or replied to.
//!
//! [`request_of`] reads the words behind the program's name. It gives a [`Wanted`], with a variant for each sort of run, or a [`Reply`]: help or
//! the version, where the words ask for it, and else what is wrong with them. Nothing is read or written here, and no file is opened. How a
//! request is followed stands above, in `kc_cores`.
//!
//! `specs/Wishes.antt` says what words ask for, as a *wish*: a function of the words, over what `clap` makes of them. `specs/Requests.antt` says
//! which request is which wish. The contract of [`request_of`] is that the request is the wish, and that a reply comes just where the wish is
//! one, or there is no memory.
//!
//! The options `--columns`, `--separator`, `--skip`, `--bad-lines` and `--ids` tell a dialect, as the end of a file's name does
//! (`dialect_words`). Those about the output stand in `output_words`, and those about a stream in `watch_words`.
//!
//! The crate stands on `kc_dialect` for dialects, on `kc_lines` for the format of lines, on `kc_watch` for what a stream is answered, on
//! `kc_queue` for how many workers there may be, on `kc_graph` for want of memory, and on `clap`.
#![tactic(auto)]

mod dialect_words;
mod output_words;
mod request;
mod watch_words;
mod words;

pub use request::{
    CheckRequest, NamedText, Request, SavePlan, SaveRequest, StreamRequest, StreamStart, Task,
    Wanted, WatchRequest,
};
pub use words::{Reply, VERSION, request_of};
