//! A run on the program's arguments.
ghost use Rattle.std.specs.Prelude.{◌≡◌, ◌≢◌, ◌⊎◌, ℕ, List, IfErr};
ghost use Rattle.std.specs.IoError.{error_kind};
ghost use Rattle.std.specs.Process.{exit_status};
ghost use Rattle.kc_args.specs.Words.{AreWords};
ghost use Rattle.kc_wishes.specs.Wishes.{wish_of};
ghost use Rattle.kc_cores.specs.CoresEnded.{ToldLine};
ghost use Rattle.kc_cores.specs.Numbers.{exit_number_of};
ghost use Rattle.kc_cores.specs.Saved.{RunEnded};
ghost use Rattle.kc_cores.specs.declared.CoresStatus.{CoresStatus};

use crate::answer::answer;
use crate::input::FileInput;
use crate::pipe::PipeSink;
use crate::{CoresStatus, CoresStreams, exit_number};
use kc_args::words_of;
use kc_files::folder::Folder;
use kc_io::sink::Sink;
use kc_keeper::BatchMaker;
use kc_threads::Hands;
use kc_wire::wire::Wire;
use std::alloc::Global;
use std::env::Args;
use std::io;
use std::io::ErrorKind;
use std::process::ExitCode;

/// The exit code of a status.
fn exit_with(status: CoresStatus) -> ExitCode
    ensures { exit_status result ≡ exit_number_of status }
{
    ExitCode::from(exit_number(status))
}

/// Answers the words of `args`, as `answer` does, and gives the exit code of the status. The words are the arguments after the program's name, in their
/// order, and an empty word in place of all where one is not UTF-8.
///
/// Where there is no memory for the words, the status is `NoMemory`, and nothing was read or written.
pub fn answer_on<
    M: BatchMaker,
    H: Hands,
    I: FileInput,
    C: FileInput,
    O: PipeSink,
    E: Sink,
    L: Wire,
    P: Folder,
>(
    alloc: Global,
    maker: &M,
    hands: &H,
    args: io::Result<Args>,
    streams: &mut CoresStreams<I, C, O, E, L>,
    folder: &mut P,
) -> ExitCode
    // The exit code is that of a status. The run ends by this status as `answer` promises it for these words; or there was no memory for
    // the words, and all is as it was.
    ensures ended { (status : CoresStatus) × (exit_status result ≡ exit_number_of status)
        × (((words : List (List ℕ)) × AreWords args words × (line : List ℕ)
        × RunEnded I.Source I.behind C.Source C.behind O.Sink O.gone L.Wire P.holds P.failed (wish_of words) status line
        streams.old.input streams.new.input streams.old.certificate streams.new.certificate streams.old.out streams.new.out
        streams.old.wire streams.new.wire folder.old folder.new × ToldLine E.Sink line streams.old.err streams.new.err)
        ⊎ ((status ≡ CoresStatus.NoMemory) × (streams.new ≡ streams.old) × (folder.new ≡ folder.old))) }
    ensures no_memory { IfErr args (λ error. error_kind error ≢ ErrorKind.InvalidData → exit_status result ≡ exit_number_of CoresStatus.NoMemory) }
{
    match words_of(alloc, args) {
        Err(_) => exit_with(CoresStatus::NoMemory),
        Ok(words) => exit_with(answer(alloc, maker, hands, words.as_slice(), streams, folder)),
    }
}
