//! The course of a run: its state from the start to the end, while its batches are worked one after the other.
//!
//! `Course` is that state: the parts of the run, and workers that live as long. `Course::work` lets them enter a batch, and counts what it
//! did. It gives the course back also where memory ran out, with the receipts of what was entered. The edges, the core numbers and their
//! greatest are the journal's and are read from it, nothing is computed anew. `Ran` gathers what a run leaves for whoever looks at it
//! afterwards: the receipts of all updates, and a pass of each table that was used.
//!
//! `specs/Runs.antt` says what a run leaves, over tables, lists and receipts alone: the tables one after the other, each but the last ended
//! because its versions were nearly spent, each opened with what the one before ended with, their entries just the updates of the batches,
//! and one receipt for each. `specs/Courses.antt` says what a course has come to so far.
#![tactic(auto)]

mod counting;
mod course;
mod ran;

pub use course::Course;
pub use ran::Ran;
