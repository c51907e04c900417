//! Dialogues over readers and writers of std that are interrupted, give short counts or fail.
ghost use Rattle.std.specs.Prelude.{◌≤◌, IfOk, length};

use crate::echo::Echo;
use kc_dialogue::answer::answer_wire;
use kc_dialogue::end::DialogueEnd;
use kc_wire::std_wire::StdWire;
use std::io;
use std::io::{Error, ErrorKind, Read, Write};
use std::process::Abort;

/// A reader whose first calls are interrupted, and which then gives a byte a call.
#[derive(Drop)]
struct Typist {
    interruptions: u32,
    left: &'static [u8],
}

impl Read for Typist {
    fn read(&mut self, into: &mut [u8]) -> io::Result<usize> {
        if self.interruptions > 0 {
            self.interruptions -= 1;
            return Err(Error::from(ErrorKind::Interrupted));
        }
        let n = into.len().min(self.left.len()).min(1);
        into[..n].copy_from_slice(&self.left[..n]);
        self.left = &self.left[n..];
        Ok(n)
    }
}

/// A writer that takes so many bytes, and then fails with an error of this kind. Its flushes fail so where they are to.
#[derive(Drop)]
struct Screen {
    room: usize,
    last: ErrorKind,
    flushes: bool,
}

impl Write for Screen {
    fn write(&mut self, piece: &[u8]) -> io::Result<usize> {
        if self.room == 0 {
            return Err(Error::from(self.last));
        }
        let n = piece.len().min(self.room);
        self.room -= n;
        Ok(n)
    }

    fn flush(&mut self) -> io::Result<()> {
        if self.flushes {
            Ok(())
        } else {
            Err(Error::from(self.last))
        }
    }
}

/// Holds a dialogue of three bytes over a typist and a screen.
fn check<R: Abort + AllocGlobal>(rt: &R, interruptions: u32, screen: Screen, wanted: DialogueEnd) {
    let typist = Typist {
        interruptions,
        left: b"abc",
    };
    let mut wire = StdWire::new(typist, screen);
    let end = answer_wire(rt.alloc(), &mut wire, &mut Echo { stopped: false });
    assert_eq!(rt; end, wanted);
}

#[test]
fn streams_that_fail_end_the_dialogue(rt: HostRuntime) {
    let screen = |room: usize, last: ErrorKind, flushes: bool| Screen {
        room,
        last,
        flushes,
    };
    let broken = ErrorKind::BrokenPipe;
    check(&rt, 999, screen(4, broken, true), DialogueEnd::Done);
    check(&rt, 1_000, screen(4, broken, true), DialogueEnd::ReadFault);
    check(&rt, 0, screen(3, broken, true), DialogueEnd::ReaderGone);
    check(
        &rt,
        0,
        screen(3, ErrorKind::TimedOut, true),
        DialogueEnd::WriteFault,
    );
    check(&rt, 0, screen(4, broken, false), DialogueEnd::ReaderGone);
}
