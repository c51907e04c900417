//! A reader of std as a source.
ghost use Rattle.std.specs.Prelude.{◌≡◌, ◌<◌, length};
ghost use Rattle.std.specs.Io.{ReadsAtMost};
ghost use Rattle.std.specs.Io.KnownBytes.{ReadConsumes};
ghost use Rattle.kc_io.specs.Causes.{HasCause, faults_after};

use crate::Failed;
use crate::interrupted::read_on;
use crate::source::Source;
use std::io::Read;
use std::marker::Model;

/// A reader of std as a source. A call that is interrupted is made again, and is a fault after 1,000 times in a row.
///
/// Contracts see how many calls have failed: each fault raises the count by one, up to the last value of a `u64`, and
/// nothing else does. They see the bytes where the reader itself tells them, as one over a list does. The streams of
/// the operating system tell none: what those give is trusted.
#[derive(Drop)]
pub struct StdSource<R: Read> {
    inner: R,
    failed: u64,
}

impl<R: Read> Model for StdSource<R> {
    ghost use Rattle.kc_io.specs.Wrapped.{Wrapped};

    ghost Value = { Wrapped };

    ghost view = { λ s. record { told = R.remaining s.inner; failed = s.failed } };
}

impl<R: Read> StdSource<R> {
    /// The reader, of which no call has failed.
    pub fn new(inner: R) -> StdSource<R>
        ensures { result ≡ record { told = R.remaining inner; failed = 0 } }
    {
        StdSource { inner, failed: 0 }
    }
}

impl<R: Read> Source for StdSource<R> {
    ghost left = { λ s. s.told };

    ghost faults = { λ s. s.failed };

    fn read(&mut self, into: &mut [u8]) -> Result<usize, Failed>
        requires { 0 < length into.old }
        ensures bound { ReadsAtMost result into.new }
        ensures bytes { ReadConsumes self.old.told self.new.told result into.new }
        ensures cause { HasCause self.old.failed self.new.failed result }
        ensures counted { self.new.failed ≡ faults_after self.old.failed result }
    {
        match read_on(&mut self.inner, into) {
            Ok(n) => Ok(n),
            Err(_) => {
                self.failed = self.failed.saturating_add(1);
                Err(Failed)
            }
        }
    }
}
