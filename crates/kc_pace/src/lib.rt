//! In how many threads rounds of work run, found by how long they took.
//!
//! A caller that works in rounds asks `Pace::begin` before each of them how many threads it is to have and when it is to end, and tells
//! `Pace::end` afterwards how much was done. A round has one thread, or all that there may be. Which of both is found by trials, and a run
//! begins with one thread. So who asks for more threads than are of use waits no longer for it, and where they are worth it they are used.
//!
//! A pace has no clock: its caller brings each moment, so one moment after the other gives the same answers each time. `pace` has the rule.
#![tactic(auto)]

mod pace;

pub use pace::{Pace, SLICE, Span};
