//! The program: reads a graph on standard input and writes the core number of each vertex on standard output.
//!
//! It only gives [`run_on`](kc_program::program::run_on) the program's arguments and the standard streams, and ends with the exit
//! code that it answers. `run_on` says all over any source and sinks. Of the arguments and of the streams of the operating system no
//! contract can say more than that: the streams tell no bytes, so what was given on standard input, and that what was taken
//! reached its reader, is trusted. It stands on `kc_program`, `kc_run` and `kc_io`.
#![tactic(auto)]

use kc_io::std_sink::StdSink;
use kc_io::std_source::StdSource;
use kc_program::Streams;
use kc_program::program::run_on;
use kc_run::Ran;
use std::env;
use std::process::ExitCode;

fn main(rt: HostRuntime) -> ExitCode {
    let mut streams = Streams {
        source: StdSource::new(rt.stdin()),
        out: StdSink::new(rt.stdout()),
        err: StdSink::new(rt.stderr()),
    };
    let mut ran = Ran::new(rt.alloc());
    run_on(&rt, rt.alloc(), env::args(&rt), &mut streams, &mut ran)
}
