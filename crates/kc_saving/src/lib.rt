//! Answers a stream on a wire, and keeps its graph in a file.
//!
//! The state behind the batches that have ended (`kc_watch`) is written as a text of `kc_state` beside a file of a folder (`kc_files`), and put in
//! its place. So it is done when the stream has ended, and before that between two reads of the wire, once so many batches have ended since the
//! last time. [`answer_and_save`] holds the dialogue of `kc_dialogue` and does both.
//!
//! Promised: the dialogue is as without saves. Whenever the file was saved, it has the text of the state that the bytes read so far mean, behind
//! their last ended batch; no other file changes. Where a state could not be saved, all that was read is answered, and the file is as the last
//! save left it.
#![tactic(auto)]

mod answer;
mod end;
mod fault;
mod save;
mod saves;

pub use answer::answer_and_save;
pub use end::SavingEnd;
pub use fault::SaveFault;
pub use saves::Saves;
pub use std::alloc::AllocError as NoMemory;
