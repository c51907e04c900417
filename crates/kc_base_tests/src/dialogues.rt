//! Dialogues over wires in memory.
use crate::echo::Echo;
use kc_dialogue::answer::{answer_opened, answer_wire};
use kc_dialogue::end::DialogueEnd;
use kc_dialogue::open::open_with;
use kc_io::NoMemory;
use kc_io::mem_source::MemSource;
use kc_wire::event::MemEvent;
use kc_wire::faults::WireFaults;
use kc_wire::hindrances::Hindrances;
use kc_wire::mem_wire::MemWire;
use std::alloc::Global;
use std::process::Abort;

/// What the echo says of some bytes: those before the first full stop.
fn said(bytes: &[u8]) -> &[u8] {
    match bytes.iter().position(|b| *b == b'.') {
        Some(n) => bytes.get(..n).unwrap_or(bytes),
        None => bytes,
    }
}

/// What hinders a wire: each read gives at most so many bytes, reads and writes of these numbers fail, and there is so much room.
#[derive(Clone, Copy)]
struct Snags<'a> {
    cut: usize,
    reads: &'a [usize],
    writes: &'a [usize],
    room: usize,
}

/// Nothing but that each read gives at most `cut` bytes.
fn cut_to(cut: usize) -> Snags<'static> {
    Snags {
        cut,
        reads: &[],
        writes: &[],
        room: usize::MAX,
    }
}

/// The hindrances of a wire in memory.
fn hindrances_of(alloc: Global, snags: Snags) -> Result<Hindrances, NoMemory> {
    Ok(Hindrances {
        cuts: vec![in alloc; snags.cut; 16]?,
        reads: Vec::from_slice(alloc, snags.reads)?,
        writes: Vec::from_slice(alloc, snags.writes)?,
        room: snags.room,
    })
}

/// A wire in memory with this input, with these snags.
fn wire_of(alloc: Global, input: &[u8], snags: Snags) -> Result<MemWire, NoMemory> {
    let hindrances = hindrances_of(alloc, snags)?;
    Ok(MemWire::new(alloc, Vec::from_slice(alloc, input)?, hindrances))
}

/// What was written in all. At each read just what is said of the bytes in front and of those read before was written.
fn written<R: Abort + AllocGlobal>(
    rt: &R,
    front: &[u8],
    events: &[MemEvent],
) -> Result<Vec<u8>, NoMemory> {
    let mut read: Vec<u8> = Vec::from_slice(rt.alloc(), front)?;
    let mut written: Vec<u8> = Vec::new(rt.alloc());
    for event in events {
        match event {
            MemEvent::Read(bytes) => {
                assert_eq!(rt; written.as_slice(), said(&read));
                read.extend_from_slice(bytes)?;
            }
            MemEvent::Wrote(bytes) => written.extend_from_slice(bytes)?,
        }
    }
    Ok(written)
}

/// Holds a dialogue, and compares how it ends, what was written and which calls failed.
fn check<R: Abort + AllocGlobal>(
    rt: &R,
    input: &[u8],
    snags: Snags,
    wanted: (DialogueEnd, &[u8], WireFaults),
) {
    let mut wire = wire_of(rt.alloc(), input, snags).expect(rt, "no memory");
    let end = answer_wire(rt.alloc(), &mut wire, &mut Echo { stopped: false });
    let written = written(rt, b"", wire.events()).expect(rt, "no memory");
    assert_eq!(rt; (end, written.as_slice(), wire.faults()), wanted);
}

/// Holds three dialogues where each read gives at most `cut` bytes: one that goes to its end, one that is ended, and one without input.
fn check_cut<R: Abort + AllocGlobal>(rt: &R, cut: usize) {
    let none = WireFaults::NONE;
    check(
        rt,
        b"abcdef",
        cut_to(cut),
        (DialogueEnd::Done, b"abcdef?", none),
    );
    check(
        rt,
        b"abc.def",
        cut_to(cut),
        (DialogueEnd::Ended, b"abc", none),
    );
    check(rt, b"", cut_to(cut), (DialogueEnd::Done, b"?", none));
}

#[test]
fn each_answer_comes_before_the_next_read(rt: HostRuntime) {
    for cut in 0..8 {
        check_cut(&rt, cut);
    }
}

#[test]
fn a_read_that_fails_ends_with_all_answers_written(rt: HostRuntime) {
    let faults = WireFaults {
        reads: 1,
        ..WireFaults::NONE
    };
    for number in 1..8 {
        let snags = Snags {
            reads: &[number],
            ..cut_to(1)
        };
        let written = b"abcdef".get(..number - 1).unwrap_or(b"abcdef");
        check(
            &rt,
            b"abcdef",
            snags,
            (DialogueEnd::ReadFault, written, faults),
        );
    }
}

/// A write fails after half of its text.
fn check_write_fault<R: Abort + AllocGlobal>(rt: &R) {
    let snags = Snags {
        writes: &[1],
        ..cut_to(4)
    };
    let failed = WireFaults {
        writes: 1,
        ..WireFaults::NONE
    };
    check(
        rt,
        b"abcdef",
        snags,
        (DialogueEnd::WriteFault, b"ab", failed),
    );
}

/// The reader goes away after so many bytes.
fn check_departure<R: Abort + AllocGlobal>(rt: &R, room: usize) {
    let snags = Snags { room, ..cut_to(2) };
    let gone = WireFaults {
        departures: 1,
        ..WireFaults::NONE
    };
    let written = b"abcdef?".get(..room).unwrap_or(b"abcdef?");
    check(
        rt,
        b"abcdef",
        snags,
        (DialogueEnd::ReaderGone, written, gone),
    );
}

#[test]
fn a_write_that_fails_ends_with_a_front_of_its_text(rt: HostRuntime) {
    check_write_fault(&rt);
    for room in 0..7 {
        check_departure(&rt, room);
    }
}

/// A text in front of a dialogue, the same with its last line ended, what the wire brings, and how it ends with what was written.
struct Opened {
    text: &'static [u8],
    front: &'static [u8],
    input: &'static [u8],
    end: DialogueEnd,
    written: &'static [u8],
}

const OPENED: [Opened; 5] = [
    Opened {
        text: b"ab\n",
        front: b"ab\n",
        input: b"cd",
        end: DialogueEnd::Done,
        written: b"ab\ncd?",
    },
    Opened {
        text: b"a\nb",
        front: b"a\nb\n",
        input: b"cd",
        end: DialogueEnd::Done,
        written: b"a\nb\ncd?",
    },
    Opened {
        text: b"ab",
        front: b"ab\n",
        input: b"c.d",
        end: DialogueEnd::Ended,
        written: b"ab\nc",
    },
    Opened {
        text: b"a.b",
        front: b"a.b\n",
        input: b"cd",
        end: DialogueEnd::Ended,
        written: b"a",
    },
    Opened {
        text: b"",
        front: b"",
        input: b"cd",
        end: DialogueEnd::Done,
        written: b"cd?",
    },
];

/// Holds a dialogue behind a text, which the source gives two bytes at a time.
fn check_opened<R: Abort + AllocGlobal>(rt: &R, opened: &Opened) {
    let text = Vec::from_slice(rt.alloc(), opened.text).expect(rt, "no memory");
    let mut source = MemSource::new(text, 2, Vec::new(rt.alloc()));
    let mut echo = Echo { stopped: false };
    let opening = open_with(rt.alloc(), &mut source, &mut echo).expect(rt, "no text");
    let mut wire = wire_of(rt.alloc(), opened.input, cut_to(1)).expect(rt, "no memory");
    let end = answer_opened(rt.alloc(), &mut wire, &mut echo, &opening);
    let written = written(rt, opened.front, wire.events()).expect(rt, "no memory");
    assert_eq!(rt; (end, written.as_slice()), (opened.end, opened.written));
}

#[test]
fn a_text_in_front_is_answered_first(rt: HostRuntime) {
    for opened in &OPENED {
        check_opened(&rt, opened);
    }
}
