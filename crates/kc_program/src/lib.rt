//! The program but its streams: a run on the words of the arguments, over any source and sinks, and the exit code.
//!
//! [`run_on`](program::run_on) reads the words of the arguments, runs [`run`](kc_top::run::run) on them, and gives the exit code of
//! its status. It keeps the promise of `run`. So what a program still does is to make the streams of the operating system and to
//! hand the exit code on. Its gate, `Paced`, finds by the clock in how many threads the workers are to run. The crate stands on
//! `kc_top`, `kc_run`, `kc_workers`, `kc_pace`, `kc_args` and `kc_io`.
#![tactic(auto)]

mod paced;
pub mod program;
mod words;

pub use kc_top::Streams;
