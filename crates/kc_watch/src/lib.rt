//! Core numbers of a graph whose edges come as lines of a stream, told as the lines come.
//!
//! A [`Watcher`] is fed the bytes of a stream, cut anywhere, and puts the text that answers them behind an output: a line for the graph of
//! the start once a batch begins, and a line for each batch once it ends, as the next one begins or the stream ends. The stream has the
//! lines of `kc_text`, and the lines of the answer are those of `kc_report`, with those of `kc_changes` behind a batch where they are asked
//! for. Among the changes stand the questions of `kc_stream`, and a line of `kc_answers` answers each at once. `specs/Text` says what the
//! answer to some bytes is: first the facts that are told, of the core numbers of the graph before and after each batch (Seidman 1983), and not
//! of what the watcher keeps; and then their lines, in words or as JSON objects (`kc_reply`). So no line is held back, and none is early.
//!
//! A refused line ends the answers, or drops its batch, as [`BadLines`] says: what the batch did is forgotten, and a line tells so in its place.
//!
//! A batch may be made by others for the keeper, as workers do (`kc_keeper_workers`): a [`WatcherWith`] has them, and no clause tells of it. So
//! the answers are the same whoever makes the batches. The crate itself starts no thread.
//!
//! What is kept is the graph with its core numbers (`kc_keeper`), the ids and the batch that is open (`kc_stream`): the memory is theirs, and
//! not that of the stream.
#![tactic(auto)]

mod batch;
mod course;
mod first_graph;
mod kept;
pub mod laws;
mod listing;
mod options;
mod roomy;
mod start;
mod state;
mod watcher;
mod watcher_with;

pub use kc_changes::Show;
pub use kc_reply::ReplyFormat;
pub use kc_stream::BadLines;
pub use options::WatchOptions;
pub use state::WatchedState;
pub use std::alloc::AllocError as NoMemory;
pub use watcher::Watcher;
pub use watcher_with::WatcherWith;
