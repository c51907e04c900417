//! Reads and writes over readers and writers of std that are interrupted, give short counts or fail, and in memory.
ghost use Rattle.std.specs.Prelude.{◌≤◌, IfOk, length};

use kc_io::Failed;
use kc_io::mem_sink::MemSink;
use kc_io::mem_source::MemSource;
use kc_io::sink::write_all;
use kc_io::source::{ReadAllFault, read_all};
use kc_io::std_sink::StdSink;
use kc_io::std_source::StdSource;
use std::io;
use std::io::{Error, ErrorKind, Read, Write};
use std::process::Abort;

/// The most bytes that a hindered call moves.
const PER_CALL: usize = 2;

/// A reader and a writer whose first calls are interrupted. The others give the bytes of `left`, or take as many as that,
/// some in a call; where none are left a read is at its end, or fails with `last`, and a write takes nothing, or fails
/// with it.
#[derive(Drop)]
struct Hindered {
    interruptions: u32,
    left: &'static [u8],
    last: Option<ErrorKind>,
}

impl Hindered {
    /// How many bytes a call moves that has room for `most`.
    fn step(&mut self, most: usize) -> io::Result<usize>
        ensures { IfOk result (λ n. (n ≤ most) × (n ≤ length self.new.left.now)) }
    {
        if self.interruptions > 0 {
            self.interruptions -= 1;
            return Err(Error::from(ErrorKind::Interrupted));
        }
        match self.last {
            Some(kind) if self.left.is_empty() => Err(Error::from(kind)),
            _ => Ok(most.min(self.left.len()).min(PER_CALL)),
        }
    }
}

impl Read for Hindered {
    fn read(&mut self, into: &mut [u8]) -> io::Result<usize> {
        let n = self.step(into.len())?;
        into[..n].copy_from_slice(&self.left[..n]);
        self.left = &self.left[n..];
        Ok(n)
    }
}

impl Write for Hindered {
    fn write(&mut self, piece: &[u8]) -> io::Result<usize> {
        let n = self.step(piece.len())?;
        self.left = &self.left[n..];
        Ok(n)
    }

    fn flush(&mut self) -> io::Result<()> {
        Ok(())
    }
}

/// Reads all of a hindered reader, where it has at most so many bytes, and compares.
fn check_read<R: Abort + AllocGlobal>(
    rt: &R,
    reader: Hindered,
    most: usize,
    wanted: Result<&[u8], ReadAllFault>,
) {
    let mut source = StdSource::new(reader);
    match read_all(rt.alloc(), &mut source, most) {
        Ok(bytes) => assert_eq!(rt; Ok(bytes.as_slice()), wanted),
        Err(fault) => assert_eq!(rt; Err(fault), wanted),
    }
}

/// Writes a text of five bytes to a hindered writer, and compares.
fn check_write<R: Abort>(rt: &R, writer: Hindered, wanted: Result<(), Failed>) {
    let mut sink = StdSink::new(writer);
    assert_eq!(rt; write_all(&mut sink, b"abcde"), wanted);
}

#[test]
fn interrupted_calls_are_made_again(rt: HostRuntime) {
    let hindered = |interruptions: u32| Hindered {
        interruptions,
        left: b"12345",
        last: None,
    };
    check_read(&rt, hindered(999), 5, Ok(b"12345"));
    check_read(&rt, hindered(999), usize::MAX, Ok(b"12345"));
    check_read(&rt, hindered(999), 4, Err(ReadAllFault::TooLong));
    check_read(&rt, hindered(1_000), 5, Err(ReadAllFault::ReadFault));
    check_write(&rt, hindered(999), Ok(()));
    check_write(&rt, hindered(1_000), Err(Failed));
}

#[test]
fn faults_in_mid_stream_are_told(rt: HostRuntime) {
    let short = |last: Option<ErrorKind>| Hindered {
        interruptions: 1,
        left: b"123",
        last,
    };
    let broken = Some(ErrorKind::BrokenPipe);
    check_read(&rt, short(broken), 5, Err(ReadAllFault::ReadFault));
    check_write(&rt, short(broken), Err(Failed));
    check_write(&rt, short(None), Err(Failed));
}

/// All of a source in memory with this text.
fn read_again<R: Abort + AllocGlobal>(rt: &R, text: &[u8]) -> Vec<u8> {
    let held = Vec::from_slice(rt.alloc(), text).expect(rt, "no memory");
    let mut source = MemSource::new(held, 4, Vec::new(rt.alloc()));
    read_all(rt.alloc(), &mut source, 9).expect(rt, "a fault")
}

/// A sink in memory takes this text, which is put out whole.
fn check_put_out<R: Abort + AllocGlobal>(rt: &R, text: &[u8]) {
    let mut sink = MemSink::new(rt.alloc(), 9, 4, Vec::new(rt.alloc())).expect(rt, "no memory");
    let ended = write_all(&mut sink, text);
    assert_eq!(rt; (ended, sink.taken()), (Ok(()), text));
}

#[test]
fn a_text_in_memory_is_read_and_put_out(rt: HostRuntime) {
    let bytes = read_again(&rt, b"some text");
    assert_eq!(rt; bytes.as_slice(), b"some text".as_slice());
    check_put_out(&rt, &bytes);
}
