//! A run on the program's arguments, over any source and sinks.
ghost use Rattle.std.specs.Prelude.{◌≡◌, ◌≢◌, ◌⊎◌, ℕ, List, IfErr};
ghost use Rattle.std.specs.IoError.{error_kind};
ghost use Rattle.std.specs.Process.{exit_status};
ghost use Rattle.kc_run.specs.Runs.{IsEmpty};
ghost use Rattle.kc_args.specs.Words.{AreWords};
ghost use Rattle.kc_top.specs.EndedFor.{EndedFor, ToldEnd};
ghost use Rattle.kc_top.specs.Given.{given};
ghost use Rattle.kc_top.specs.Settings.{setting};
ghost use Rattle.kc_top.specs.Statuses.{exit_of};
ghost use Rattle.kc_top.specs.declared.Status.{Status};

use crate::paced::Paced;
use crate::words::borrowed;
use kc_args::words_of;
use kc_io::sink::Sink;
use kc_io::source::Source;
use kc_run::Ran;
use kc_top::run::run;
use kc_top::{Status, Streams, exit_number};
use std::alloc::Global;
use std::env::Args;
use std::io;
use std::io::ErrorKind;
use std::process::ExitCode;
use std::sync::Wait;
use std::thread::Threads;
use std::time::Clock;

/// The exit code of a status.
fn exit_with(status: Status) -> ExitCode
    ensures { exit_status result ≡ exit_of status }
{
    ExitCode::from(exit_number(status))
}

/// Runs on the words of `args`, and gives the exit code of the status. The words are the arguments after the program's name, in their
/// order, and an empty word in place of all where one is not UTF-8.
///
/// `ran` takes what the run leaves. Where there is no memory for the words, the status is `NoMemory`, and nothing was read or written.
pub fn run_on<S: Source, O: Sink, E: Sink, R: Threads + Wait + Sync + Clock>(
    rt: &R,
    alloc: Global,
    args: io::Result<Args>,
    streams: &mut Streams<S, O, E>,
    ran: &mut Ran,
) -> ExitCode
    requires empty { IsEmpty ran.old }
    // The exit code is that of a status. The run ends by this status as `run` promises it for these words; or there was no memory for the
    // words, and all is as it was.
    ensures ended { (status : Status) × (exit_status result ≡ exit_of status)
        × (((words : List (List ℕ)) × AreWords args words
        × EndedFor S.Source O.Sink (setting words) status streams.old.source streams.new.source streams.old.out streams.new.out ran.old ran.new
        × ToldEnd E.Sink (given (setting words) (S.left streams.old.source)) status streams.old.err streams.new.err)
        ⊎ ((status ≡ Status.NoMemory) × (streams.new ≡ streams.old) × (ran.new ≡ ran.old))) }
    ensures no_memory { IfErr args (λ error. error_kind error ≢ ErrorKind.InvalidData → exit_status result ≡ exit_of Status.NoMemory) }
{
    let Ok(words) = words_of(alloc, args) else {
        return exit_with(Status::NoMemory);
    };
    let Ok(texts) = borrowed(alloc, &words) else {
        return exit_with(Status::NoMemory);
    };
    let gate = Paced::new(rt);
    let status = run(rt, alloc, &texts, streams, &gate, ran);
    exit_with(status)
}
