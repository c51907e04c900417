//! The program on an input that is refused: the same `main` as that of `kcore`, which the gate runs on a refused line.
//!
//! The gate runs a program once, with one input and one status. `kcore` itself is run on an input that is accepted, with status 0. This
//! one has to end with status 3 and to write nothing on standard output. It stands on `kc_program`, `kc_run` and `kc_io`.
#![tactic(auto)]

use kc_io::std_sink::StdSink;
use kc_io::std_source::StdSource;
use kc_program::Streams;
use kc_program::program::run_on;
use kc_run::Ran;
use std::env;
use std::process::ExitCode;

fn main(rt: HostRuntime) -> ExitCode {
    let mut streams = Streams {
        source: StdSource::new(rt.stdin()),
        out: StdSink::new(rt.stdout()),
        err: StdSink::new(rt.stderr()),
    };
    let mut ran = Ran::new(rt.alloc());
    run_on(&rt, rt.alloc(), env::args(&rt), &mut streams, &mut ran)
}
