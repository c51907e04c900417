//! A list in which any two items are compared by their labels, with constant work.
//!
//! `PlainOrder` is the two-level list of Dietz and Sleator (1987) on one thread. Its labels are kept
//! in words, as a shared table keeps them, and each call tells by which writes the words become what
//! they are now, so that another structure can store them one at a time.
//!
//! What is promised: under `put_after` and `take` it is a plain list; after every write but the last
//! of a call the labels order the list as it was before the call, and after the last as it is now;
//! each write raises its word's version by one; no word is written more than once in a call, but for
//! the moved item's, which is written at most twice; no call after `open` takes memory.
//!
//! How it is kept, from the bottom up: `write` is one write, `sheet` has the words and the writes, `groups` the sizes of the
//! groups, `kc_links` the neighbours of each item. `labelled` has the three in one list, which its labels
//! order also between two writes; the modules after it are its methods. `gather` lists a group, `spread`
//! and `tops` give it or all groups new labels, `split` moves its upper half. `room` and `halve` decide
//! which of these a put needs, `place` makes the last write, and `plain` puts it together.
#![tactic(auto)]

mod cut;
mod gather;
mod groups;
mod halve;
mod labelled;
pub mod limits;
mod opening;
mod place;
mod plain;
mod room;
mod scratch;
mod sheet;
mod split;
mod spread;
mod tops;
mod write;

pub use limits::{GROUP_ITEMS, HALF_ITEMS, HALF_STEP, ITEM_WRITES, OPENING_ITEMS};
pub use plain::PlainOrder;
pub use std::alloc::AllocError as NoMemory;
pub use write::Write;
