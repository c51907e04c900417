//! A reader and a writer of std as a wire.
ghost use Rattle.std.specs.Prelude.{◌≡◌, ◌<◌, ◌↔◌, None, IsTrue, length};
ghost use Rattle.std.specs.Io.{ReadsAtMost};
ghost use Rattle.std.specs.IoError.{error_kind};
ghost use Rattle.kc_wire.specs.Events.{TellsRead, TellsWrite};
ghost use Rattle.kc_wire.specs.Faults.{after_read, after_write, no_fault};

use crate::faults::{WireFaults, WriteFault};
use crate::wire::Wire;
use kc_io::Failed;
use kc_io::source::Source;
use kc_io::std_source::StdSource;
use std::io;
use std::io::{Error, ErrorKind, Read, Write};
use std::marker::Model;

/// How often a flush is made in all, where each was interrupted.
const TRIES: u32 = 1_000;

/// A reader and a writer of std as a wire. A call that is interrupted is made again, and is a fault after 1,000 times in a row; a write
/// that takes no byte is a fault too.
///
/// Contracts see how many calls have failed. It tells no history: what the streams of the operating system give and take is trusted, and
/// so is that they tell a reader that went away as a broken pipe.
#[derive(Drop)]
pub struct StdWire<R: Read, W: Write> {
    source: StdSource<R>,
    writer: W,
    faults: WireFaults,
}

impl<R: Read, W: Write> Model for StdWire<R, W> {
    ghost use Rattle.kc_wire.specs.declared.faults.WireFaults.{WireFaults};

    ghost Value = { WireFaults };

    ghost view = { λ s. s.faults };
}

/// Flushes, and again as long as the call is interrupted, at most [`TRIES`] times; after that the error is `TimedOut`.
fn flush_on<W: Write>(writer: &mut W) -> io::Result<()> {
    for _ in 0..TRIES {
        match writer.flush() {
            Ok(()) => return Ok(()),
            Err(error) => {
                if error.kind() != ErrorKind::Interrupted {
                    return Err(error);
                }
            }
        }
    }
    Err(Error::from(ErrorKind::TimedOut))
}

/// Writes a whole text, and flushes it.
fn put_out<W: Write>(writer: &mut W, text: &[u8]) -> io::Result<()> {
    writer.write_all(text)?;
    flush_on(writer)
}

/// The fault that an error of a write tells.
fn fault_of(error: &Error) -> WriteFault
    ensures { (result ≡ WriteFault.ReaderGone) ↔ (error_kind error.now ≡ ErrorKind.BrokenPipe) }
{
    if error.kind() == ErrorKind::BrokenPipe {
        WriteFault::ReaderGone
    } else {
        WriteFault::Failed
    }
}

impl<R: Read, W: Write> StdWire<R, W> {
    /// The reader and the writer, of which no call has failed.
    pub fn new(reader: R, writer: W) -> StdWire<R, W>
        ensures { result ≡ no_fault }
    {
        StdWire {
            source: StdSource::new(reader),
            writer,
            faults: WireFaults::NONE,
        }
    }
}

impl<R: Read, W: Write> Wire for StdWire<R, W> {
    ghost history = { λ _. None };

    ghost faults = { λ s. s };

    fn read(&mut self, into: &mut [u8]) -> Result<usize, Failed>
        requires { 0 < length into.old }
        ensures bound { ReadsAtMost result into.new }
        ensures history { TellsRead None None result into.new }
        ensures cause { self.new ≡ after_read self.old result }
    {
        let read = self.source.read(into);
        if read.is_err() {
            self.faults.count_read();
        }
        read
    }

    fn write_all(&mut self, text: &[u8]) -> Result<(), WriteFault>
        ensures history { TellsWrite None None result text.now }
        ensures cause { self.new ≡ after_write self.old result }
    {
        if text.is_empty() {
            return Ok(());
        }
        match put_out(&mut self.writer, text) {
            Ok(()) => Ok(()),
            Err(error) => {
                let fault = fault_of(&error);
                self.faults.count_write(fault);
                Err(fault)
            }
        }
    }
}
