//! A writer of std as a sink that knows whether its reader went away.
ghost use Rattle.std.specs.Prelude.{◌≡◌, ◌<◌, ◌≤◌, ◌↔◌, None, IfOk, IfErr, IsTrue, OnOk, false, length};
ghost use Rattle.std.specs.Io.{WritesAtMost};
ghost use Rattle.std.specs.Io.KnownBytes.{WriteAppends};
ghost use Rattle.std.specs.IoError.{error_kind};
ghost use Rattle.kc_io.specs.Causes.{HasCause, faults_after};
ghost use Rattle.kc_io.specs.FirstPiece.{KeepsFirst};
ghost use Rattle.kc_io.specs.Offers.{IsOffered, amount};

use crate::pipe::PipeSink;
use kc_io::Failed;
use kc_io::sink::Sink;
use std::io;
use std::io::{Error, ErrorKind, Write};
use std::marker::Model;

/// How often a call is made in all, where each was interrupted.
const TRIES: u32 = 1_000;

/// A writer of std as a sink, as `StdSink` is one, that remembers whether its reader went away.
///
/// Contracts see how many calls have failed: each fault raises the count by one, up to the last value of a `u64`, and nothing else does.
/// They see the bytes where the writer itself tells them. What the streams of the operating system take is trusted, and so is that they
/// tell a reader that went away as a broken pipe.
#[derive(Drop)]
pub struct StdPipe<W: Write> {
    inner: W,
    failed: u64,
    gone: bool,
}

impl<W: Write> Model for StdPipe<W> {
    ghost use Rattle.kc_cores.specs.Outputs.{WrappedPipe};

    ghost Value = { WrappedPipe };

    ghost view = { λ s. record { told = W.contents s.inner; failed = s.failed; gone = s.gone } };
}

/// Writes once, and again as long as the call is interrupted, at most [`TRIES`] times; after that the error is `TimedOut`. A call that is
/// interrupted moves no byte.
fn write_on<W: Write>(writer: &mut W, piece: &[u8]) -> io::Result<usize>
    ensures bound { WritesAtMost result piece.now }
    ensures bytes { WriteAppends (W.contents writer.old) (W.contents writer.new) result piece.now }
{
    for _ in 0..TRIES {
        match writer.write(piece) {
            Ok(n) => return Ok(n),
            Err(error) => {
                if error.kind() != ErrorKind::Interrupted {
                    return Err(error);
                }
            }
        }
    }
    Err(Error::from(ErrorKind::TimedOut))
}

/// Whether a write failed since the reader went away.
fn is_reader_away(error: &Error) -> bool
    ensures { IsTrue result ↔ (error_kind error.now ≡ ErrorKind.BrokenPipe) }
{
    error.kind() == ErrorKind::BrokenPipe
}

impl<W: Write> StdPipe<W> {
    /// The writer, of which no call has failed.
    pub fn new(inner: W) -> StdPipe<W>
        ensures { result ≡ record { told = W.contents inner; failed = 0; gone = false } }
    {
        StdPipe {
            inner,
            failed: 0,
            gone: false,
        }
    }
}

impl<W: Write> Sink for StdPipe<W> {
    ghost taken = { λ s. s.told };

    ghost first = { λ _. None };

    ghost offers = { λ _. None };

    ghost faults = { λ s. s.failed };

    fn write(&mut self, piece: &[u8]) -> Result<usize, Failed>
        requires { 0 < length piece.now }
        ensures bound { IfOk result (λ n. (0 < n) × (n ≤ length piece.now)) }
        ensures bytes { WriteAppends self.old.told self.new.told result piece.now }
        ensures first { KeepsFirst None None piece.now }
        ensures offers { IsOffered None None (length piece.now) (amount result) }
        ensures cause { HasCause self.old.failed self.new.failed result }
        ensures counted { self.new.failed ≡ faults_after self.old.failed result }
        ensures gone { OnOk result (self.new.gone ≡ self.old.gone) }
    {
        let gone = match write_on(&mut self.inner, piece) {
            Ok(n) if n > 0 => return Ok(n),
            Ok(_) => false,
            Err(error) => is_reader_away(&error),
        };
        self.failed = self.failed.saturating_add(1);
        self.gone = gone;
        Err(Failed)
    }
}

impl<W: Write> PipeSink for StdPipe<W> {
    ghost gone = { λ s. s.gone };

    fn is_reader_gone(&self) -> bool
        ensures { result ≡ self.now.gone }
    {
        self.gone
    }
}
