//! A writer of std as a sink.
ghost use Rattle.std.specs.Prelude.{◌≡◌, ◌<◌, ◌≤◌, None, IfOk, length};
ghost use Rattle.std.specs.Io.KnownBytes.{WriteAppends};
ghost use Rattle.kc_io.specs.Causes.{HasCause, faults_after};
ghost use Rattle.kc_io.specs.FirstPiece.{KeepsFirst};
ghost use Rattle.kc_io.specs.Offers.{IsOffered, amount};

use crate::Failed;
use crate::interrupted::write_on;
use crate::sink::Sink;
use std::io::Write;
use std::marker::Model;

/// A writer of std as a sink. A call that is interrupted is made again, and is a fault after 1,000 times in a row; a
/// write that takes no byte is a fault too.
///
/// Contracts see how many calls have failed: each fault raises the count by one, up to the last value of a `u64`, and
/// nothing else does. They see the bytes where the writer itself tells them, as one over a list does. The streams of
/// the operating system tell none: what those take is trusted. It does not tell how it was offered them.
#[derive(Drop)]
pub struct StdSink<W: Write> {
    inner: W,
    failed: u64,
}

impl<W: Write> Model for StdSink<W> {
    ghost use Rattle.kc_io.specs.Wrapped.{Wrapped};

    ghost Value = { Wrapped };

    ghost view = { λ s. record { told = W.contents s.inner; failed = s.failed } };
}

impl<W: Write> StdSink<W> {
    /// The writer, of which no call has failed.
    pub fn new(inner: W) -> StdSink<W>
        ensures { result ≡ record { told = W.contents inner; failed = 0 } }
    {
        StdSink { inner, failed: 0 }
    }
}

impl<W: Write> Sink for StdSink<W> {
    ghost taken = { λ s. s.told };

    ghost first = { λ _. None };

    ghost offers = { λ _. None };

    ghost faults = { λ s. s.failed };

    fn write(&mut self, piece: &[u8]) -> Result<usize, Failed>
        requires { 0 < length piece.now }
        ensures bound { IfOk result (λ n. (0 < n) × (n ≤ length piece.now)) }
        ensures bytes { WriteAppends self.old.told self.new.told result piece.now }
        ensures first { KeepsFirst None None piece.now }
        ensures offers { IsOffered None None (length piece.now) (amount result) }
        ensures cause { HasCause self.old.failed self.new.failed result }
        ensures counted { self.new.failed ≡ faults_after self.old.failed result }
    {
        match write_on(&mut self.inner, piece) {
            Ok(n) if n > 0 => Ok(n),
            _ => {
                self.failed = self.failed.saturating_add(1);
                Err(Failed)
            }
        }
    }
}
