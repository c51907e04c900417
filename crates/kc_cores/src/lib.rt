//! What `cores` does but for its streams: a command on a graph, bytes in and lines out.
//!
//! [`answer`](answer::answer) has the words read, then reads the graph from standard input or a file, and writes the lines that the command
//! asks for. To the sink of messages it writes one line: what the graph is like where the run is done, and else what was found wrong and how
//! it is mended. Its promise is one record, `CoresEnded`, with a field for each clause (`specs/CoresEnded.antt`). `specs/Answers.antt` says what
//! the lines are, and `specs/Sentences.antt` has the lines of messages. What words ask for is said and read below, in `kc_wishes`.
//!
//! A command is a variant of [`Task`]. What its lines need is made first, as `MadeLines`: so where there is no memory, no line was written.
//! Lines are then gathered and written in pieces, with tabs or as JSON, so no text of the whole is made.
//! [`answer_in_memory`](memory::answer_in_memory) is the same run over an input and sinks in memory, where every clause speaks of bytes that
//! are known. [`answer_on`](program::answer_on) takes the words of a program's arguments.
//!
//! The command `check` reads a certificate beside the graph (`specs/CheckEnded.antt`), and writes whether it shows the core numbers. With
//! `--stream` it makes no graph, and insists on edges that ascend; with `--pieces` these lie in files that are read one after another
//! (`specs/StreamChecked.antt`).
//!
//! A graph that is read whole is read and made by the hands that the caller gives (`kc_threads`), by as many threads as words ask for.
//!
//! The command `watch` answers a stream on a wire (`specs/WatchEnded.antt`): edges, and then batches of changes, each as soon as it has ended. With
//! `--from` the text of a file stands in front of what the wire brings. Its batches are made by whom the caller hands in (`kc_keeper`); no code of the
//! crate starts a thread or waits for one.
//!
//! With `--output` the lines become a file of a folder, once all of them are written; where a fault comes before, the file is as it was
//! (`specs/Saved.antt`).
//!
//! Words may tell a dialect, as the end of a file's name does. A text in a dialect means what the text of numbers means for which it stands;
//! without one it is read as it is, but for a byte order mark. Where ids are names, lines have the names in their place (`labels`). The head
//! of a text is looked at first (`kc_head`): where the text is refused, it tells what the text is, and shows the line; where it is read and
//! may be no lines of a graph, that is told (`remarks`).
//!
//! The crate stands on `kc_io` for sources and sinks, on `kc_text` for what a text means, on `kc_dialect` and `kc_dialect_read` for dialects, on
//! `kc_names` for names, on `kc_head` for the head of a text, on `kc_flat` and `kc_graph` for core numbers, on `kc_tally` for layers, on
//! `kc_claims` for certificates, on `kc_threads` for who reads a graph, on `kc_keeper` for who makes the batches of a stream, on `kc_wire`,
//! `kc_dialogue`, `kc_stream` and `kc_watch` for streams, on `kc_lines` for lines, on `kc_files` for files that are replaced whole, on `kc_wishes`
//! for what words ask for, and on `clap` for the kinds of its replies.
#![tactic(auto)]

pub mod answer;
mod ascending;
mod checking;
mod ending;
mod front;
pub mod input;
mod labels;
mod lines;
mod listing;
mod loading;
mod made_lines;
pub mod mem_input;
pub mod mem_pipe;
pub mod memory;
mod message;
pub mod pipe;
mod prepared;
pub mod program;
mod reading;
mod remarks;
mod saving;
mod sentences;
mod sizes;
mod skips;
pub mod std_input;
pub mod std_pipe;
mod stream_check;
mod streams;
mod summary;
mod verdict;
mod vertices;
mod watch_saving;
mod watching;

ghost use Rattle.std.specs.Prelude.{◌≡◌};
ghost use Rattle.kc_cores.specs.Numbers.{exit_number_of};

pub use kc_wishes::{Task, VERSION};
pub use streams::CoresStreams;

/// How a run ended.
#[derive(Clone, Copy, Debug, PartialEq, Eq)]
pub enum CoresStatus {
    /// All lines were written.
    Done,
    /// The certificate is one of the core numbers, which was written.
    Certified,
    /// The certificate is none, which was written.
    Uncertified,
    /// The words ask for help or the version, which was written.
    Shown,
    /// The words are not right. Nothing was read.
    Usage,
    /// The input is refused.
    Refused,
    /// The file that the words name was not opened.
    Unopened,
    /// The source failed.
    ReadFault,
    /// The reader of the lines went away. What was written before is a prefix of them.
    ReaderGone,
    /// The sink of the lines failed otherwise.
    WriteFault,
    /// There was no memory.
    NoMemory,
}

/// The number that the program ends with.
pub fn exit_number(status: CoresStatus) -> u8
    ensures { result ≡ exit_number_of status }
{
    match status {
        CoresStatus::Done | CoresStatus::Certified | CoresStatus::Shown | CoresStatus::ReaderGone =>
            0,
        CoresStatus::Uncertified => 1,
        CoresStatus::Usage => 2,
        CoresStatus::Refused => 3,
        CoresStatus::Unopened | CoresStatus::ReadFault => 4,
        CoresStatus::WriteFault => 5,
        CoresStatus::NoMemory => 6,
    }
}
