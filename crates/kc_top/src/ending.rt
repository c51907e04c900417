//! Where a run stops: its status, and the line about it.
ghost use Rattle.std.specs.Prelude.{◌≡◌, ◌<◌, IfOk, length, string_bytes};
ghost use Rattle.kc_io.specs.FirstPiece.{KeepsFirst};
ghost use Rattle.kc_top.specs.ErrLines.{OfferedLine, TookLine, refused_line};
ghost use Rattle.kc_top.specs.Stops.{TellsRefusal, status_of, stop_line};

use crate::Status;
use kc_graph::NoMemory;
use kc_io::sink::{Sink, write_all};
use kc_text::Refusal;
use std::alloc::Global;

const USAGE: &str =
    "usage: kcore [--workers W] [--show cores|summary|each] [--level K] [--gen NUMBER] [--start buckets|hindex]\n";

/// Why a run stops before its end.
#[derive(Drop)]
pub(crate) enum Stop {
    Usage,
    /// The input is refused, with this line.
    Refused(String),
    ReadFault,
    WriteFault,
    NoMemory,
}

impl From<NoMemory> for Stop {
    ghost use Rattle.kc_top.specs.declared.ending.Stop.TheVariants as stop;

    ghost from_gives = { λ _ s. s ≡ stop.NoMemory };

    fn from(_: NoMemory) -> Stop {
        Stop::NoMemory
    }
}

fn refused_line(alloc: Global, refusal: Refusal) -> Result<String, NoMemory>
    ensures { IfOk result (λ line. string_bytes line ≡ refused_line refusal.line refusal.kind) }
{
    let Refusal { line, kind } = refusal;
    format!(in alloc; "refused line {line} kind {kind}\n")
}

/// The stop at a refusal. Its line is made here, so that ending the run takes no memory.
pub(crate) fn refused(alloc: Global, refusal: Refusal) -> Stop
    ensures { TellsRefusal result refusal.line refusal.kind }
{
    match refused_line(alloc, refusal) {
        Ok(line) => Stop::Refused(line),
        Err(_) => Stop::NoMemory,
    }
}

/// Writes a line. A fault of the sink changes nothing.
fn put_line<E: Sink>(err: &mut E, line: &[u8])
    requires { 0 < length line.now }
    ensures offered { KeepsFirst (E.first err.old) (E.first err.new) line.now }
    ensures took { TookLine (E.taken err.old) (E.taken err.new) (E.faults err.old) (E.faults err.new) line.now }
{
    let _ = write_all(err, line);
}

/// Writes the line about the stop, and gives the status, which is settled before.
pub(crate) fn finish<E: Sink>(err: &mut E, stop: Stop) -> Status
    requires { 0 < length (stop_line stop) }
    ensures status { result ≡ status_of stop }
    ensures offered { OfferedLine (status_of stop) (E.first err.old) (E.first err.new) (stop_line stop) }
    ensures took { TookLine (E.taken err.old) (E.taken err.new) (E.faults err.old) (E.faults err.new) (stop_line stop) }
{
    match stop {
        Stop::Usage => {
            put_line(err, USAGE.as_bytes());
            Status::Usage
        }
        Stop::Refused(line) => {
            put_line(err, line.as_bytes());
            Status::Refused
        }
        Stop::ReadFault => {
            put_line(err, b"read fault\n");
            Status::ReadFault
        }
        Stop::WriteFault => {
            put_line(err, b"write fault\n");
            Status::WriteFault
        }
        Stop::NoMemory => {
            put_line(err, b"no memory\n");
            Status::NoMemory
        }
    }
}
