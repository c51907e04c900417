//! The program `cores`: reads a graph and writes what its command asks for.
//!
//! It only gives [`answer_on`](kc_cores::program::answer_on) the program's arguments, the standard streams and the files of the system, and
//! ends with the exit code that it answers. `answer_on` says all over any input and sinks. Of the arguments, the files and the streams of the
//! operating system no contract can say more than that. Where standard error is a terminal, it also shows there how far a long run is. Its
//! workers are threads that make large batches of a stream (`kc_keeper_workers`), where its words ask for some, and its hands are threads that
//! read a graph (`kc_threads`): no other code of the program starts a thread or waits. It stands on `kc_args`, `kc_cores`, `kc_files`,
//! `kc_io`, `kc_keeper_workers`, `kc_progress`, `kc_threads` and `kc_wire`.
#![tactic(auto)]

use kc_cores::CoresStreams;
use kc_cores::input::FileInput;
use kc_cores::pipe::PipeSink;
use kc_cores::program::answer_on;
use kc_cores::std_input::StdInput;
use kc_cores::std_pipe::StdPipe;
use kc_files::folder::Folder;
use kc_files::std_folder::StdFolder;
use kc_io::sink::Sink;
use kc_io::std_sink::StdSink;
use kc_keeper_workers::{RuntimeThreads, RuntimeWorkers, Workforce};
use kc_progress::{Silent, TerminalProgress};
use kc_threads::{Crew, RuntimeCrew, Threaded};
use kc_wire::std_wire::StdWire;
use kc_wire::wire::Wire;
use std::alloc::Global;
use std::env::Args;
use std::io::IsTerminal;
use std::process::ExitCode;
use std::{env, io};

/// The answer to the program's arguments. Batches of a stream are made by workers, where the words ask for some, and a graph is read by the
/// threads of a crew.
fn answer_by<
    F: Workforce,
    K: Crew,
    I: FileInput,
    C: FileInput,
    O: PipeSink,
    E: Sink,
    L: Wire,
    P: Folder,
>(
    alloc: Global,
    workforce: &F,
    crew: &K,
    args: io::Result<Args>,
    streams: &mut CoresStreams<I, C, O, E, L>,
    folder: &mut P,
) -> ExitCode
    requires workforce { ∥ F.shareable workforce.now ∥₁ }
    requires crew { ∥ K.shareable crew.now ∥₁ }
{
    answer_on(
        alloc,
        &RuntimeWorkers::new(workforce),
        &Threaded::new(crew),
        args,
        streams,
        folder,
    )
}

fn main(rt: HostRuntime) -> ExitCode {
    let progress = TerminalProgress::new(&rt, rt.stderr().is_terminal());
    let mut streams = CoresStreams {
        input: StdInput::new(&rt, rt.stdin(), progress),
        certificate: StdInput::new(&rt, io::empty(), Silent),
        out: StdPipe::new(rt.stdout()),
        err: StdSink::new(rt.stderr()),
        wire: StdWire::new(rt.stdin(), rt.stdout()),
    };
    let mut folder = StdFolder::new(&rt, rt.alloc());
    let workforce = RuntimeThreads { rt: &rt };
    let crew = RuntimeCrew { rt: &rt };
    answer_by(
        rt.alloc(),
        &workforce,
        &crew,
        env::args(&rt),
        &mut streams,
        &mut folder,
    )
}
