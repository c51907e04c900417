//! Core numbers for readers without a lock: each reads the list that was published last, while the next one is worked out.
//!
//! `open` makes a board of a list of core numbers, with one `Publisher` and up to 64 `Reader`s. The history of a board is a list of
//! lists, oldest first: the one that it was opened with, and one more for each `Publisher::publish`. It exists in the proofs alone. What
//! a reader has seen is a beginning of it: each `Reader::read` answers a core number of the last list that is then seen, with that
//! list's number in the history, and what was seen before is never taken back. A `Note` carries what the publisher has seen to a reader,
//! in whatever thread, and after `Reader::learn` that reader sees no less.
//!
//! Nobody but the publisher adds to the history: `specs/Rules.antt` has the rule that says so, `specs/Histories.antt` what contracts see.
//!
//! A publish changes two copies of the list, one after the other, at the vertices whose numbers differ. Readers and publisher may wait:
//! the publisher for readers that are in the copy from before, a reader where it looks before what it was told of is shown.
//!
//! The program `watch_cores` shows how threads watch core numbers while batches are worked off.
#![tactic(auto)]

mod author;
mod board;
mod front;
mod listing;
mod member;
mod name;
mod publisher;
mod reader;
mod rule;
mod steps;

pub use front::Note;
pub use listing::Place;
pub use member::Member;
pub use name::BoardName;
pub use publisher::{MOST_LISTS, MOST_READERS, Publisher, open};
pub use reader::{Read, Reader};
pub use std::alloc::AllocError as NoMemory;
pub use steps::Blank;
