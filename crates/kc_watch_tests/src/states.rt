//! The text of a kept state, of the ids 8, 5, 7 and 9 in the order of their coming: a triangle of the first three, and 9 that hangs on 8.
ghost use Rattle.std.specs.Prelude.{◌<◌, length};

use kc_io::mem_sink::MemSink;
use kc_lines::page::Page;
use kc_state::{ReadFault, StateFault, StateKind, read_state, write_state};
use std::process::Abort;

/// All lines but the last.
const BODY: &[u8] = b"kcore-state 1\nbatches 3\nvertices 4\nedges 4\n\
    8 2 3\n5 2 1\n7 2 2\n9 1 0\n8 5\n8 7\n8 9\n5 7\n";

/// The last line, with a check sum that another program worked out.
const END: &[u8] = b"sum 11586585196467878264\n";

/// What the reader says of a text: nothing where it is a state's.
fn fault_of<R: Abort + AllocGlobal>(rt: &R, text: &[u8]) -> Option<ReadFault> {
    read_state(rt.alloc(), text).err()
}

/// Two texts, one behind the other.
fn joined<R: Abort + AllocGlobal>(rt: &R, first: &[u8], second: &[u8]) -> Vec<u8> {
    let mut text = Vec::from_slice(rt.alloc(), first).expect(rt, "no memory");
    text.extend_from_slice(second).expect(rt, "no memory");
    text
}

/// The text that is written of the state that a text tells, by a sink that takes seven bytes in a call.
fn written_again<R: Abort + AllocGlobal>(rt: &R, text: &[u8]) -> Vec<u8> {
    let state = read_state(rt.alloc(), text).expect(rt, "no state");
    let page = Page::new(rt.alloc()).expect(rt, "no memory");
    let mut sink = MemSink::new(rt.alloc(), 1000, 7, Vec::new(rt.alloc())).expect(rt, "no memory");
    let names = state.ids.names();
    write_state(page, &mut sink, state.batches, names, &state.lawful).expect(rt, "not written");
    Vec::from_slice(rt.alloc(), sink.taken()).expect(rt, "no memory")
}

/// Checks that the state that a text tells has this text.
fn check_state<R: Abort + AllocGlobal>(rt: &R, text: &[u8]) {
    assert_eq!(rt; written_again(rt, text).as_slice(), text);
}

#[test]
fn a_state_is_read_and_written_again(rt: HostRuntime) {
    check_state(&rt, &joined(&rt, BODY, END));
    let nothing = b"kcore-state 1\nbatches 0\nvertices 0\nedges 0\nsum 3904132583952113892\n";
    check_state(&rt, nothing);
}

/// Checks that a text is refused in this line, for this.
fn check_fault<R: Abort + AllocGlobal>(rt: &R, text: &[u8], line: u64, kind: StateKind) {
    let wanted = Some(ReadFault::Faulty(StateFault { line, kind }));
    assert_eq!(rt; fault_of(rt, text), wanted);
}

/// Checks that each front of a text is refused in the line where it ends, as cut.
fn check_fronts<R: Abort + AllocGlobal>(rt: &R, text: &[u8]) {
    let mut line = 1u64;
    for len in 0..text.len() {
        check_fault(rt, &text[..len], line, StateKind::Cut);
        if text[len] == b'\n' {
            line = line.saturating_add(1);
        }
    }
}

#[test]
fn a_text_that_was_cut_anywhere_is_refused(rt: HostRuntime) {
    check_fronts(&rt, &joined(&rt, BODY, END));
}

/// Checks that a text is refused with other bytes in place of one.
fn check_bytes<R: Abort + AllocGlobal>(rt: &R, text: &mut [u8], place: usize)
    requires { place < length text.old }
{
    let right = text[place];
    for byte in b" \n0123456789-x" {
        text[place] = *byte;
        assert!(rt; *byte == right || fault_of(rt, text).is_some());
    }
    text[place] = right;
}

/// Checks that a text is refused with another byte, whichever and wherever.
fn check_places<R: Abort + AllocGlobal>(rt: &R, text: &mut [u8]) {
    for place in 0..text.len() {
        check_bytes(rt, text, place);
    }
}

#[test]
fn a_text_with_another_byte_is_refused(rt: HostRuntime) {
    let mut text = joined(&rt, BODY, END);
    check_places(&rt, &mut text);
}

/// The lines of the text but the last.
const LINES: [&[u8]; 12] = [
    b"kcore-state 1",
    b"batches 3",
    b"vertices 4",
    b"edges 4",
    b"8 2 3",
    b"5 2 1",
    b"7 2 2",
    b"9 1 0",
    b"8 5",
    b"8 7",
    b"8 9",
    b"5 7",
];

/// The check sum of a text.
fn sum_of(text: &[u8]) -> u64 {
    let mut sum = 0u64;
    for byte in text {
        sum = sum
            .wrapping_mul(1_099_511_628_211)
            .wrapping_add(u64::from(*byte));
    }
    sum
}

/// The lines with another one in place of this one, from 1.
fn lines_with<R: Abort + AllocGlobal>(rt: &R, number: usize, other: &[u8]) -> Vec<u8> {
    let mut text = Vec::new(rt.alloc());
    for (place, line) in LINES.iter().enumerate() {
        let line = if place + 1 == number { other } else { *line };
        text.extend_from_slice(line).expect(rt, "no memory");
        text.push(b'\n').expect(rt, "no memory");
    }
    text
}

/// The text with another line in place of this one, from 1, and the check sum that belongs to it.
fn text_with<R: Abort + AllocGlobal>(rt: &R, number: usize, other: &[u8]) -> Vec<u8> {
    let lines = lines_with(rt, number, other);
    let end = format!(in rt.alloc(); "sum {}\n", sum_of(&lines)).expect(rt, "no memory");
    joined(rt, &lines, end.as_bytes())
}

/// The number of a line, what stands in its place, and in which line the text is refused then, for what.
const ROWS: [(usize, &[u8], u64, StateKind); 20] = [
    (1, b"kcore-graph 1", 1, StateKind::NotAState),
    (1, b"kcore-state 2", 1, StateKind::OtherVersion),
    (2, b"batch 3", 2, StateKind::NotACount),
    (3, b"vertices 16777217", 3, StateKind::TooManyVertices),
    (3, b"vertices 5", 9, StateKind::NotAVertex),
    (3, b"vertices 3", 5, StateKind::WrongPlace),
    (4, b"edges 5", 13, StateKind::NotAnEdge),
    (4, b"edges 3", 12, StateKind::NotTheEnd),
    (6, b"8 2 1", 6, StateKind::RepeatedId),
    (6, b"5 2 3", 6, StateKind::WrongPlace),
    (6, b"5 2", 6, StateKind::NotAVertex),
    (6, b"4294967296 2 1", 6, StateKind::NotAVertex),
    (6, b"5 3 1", 8, StateKind::NotCertified),
    (6, b"5 02 1", 6, StateKind::OtherForm),
    (9, b"8 6", 9, StateKind::UnknownId),
    (9, b"8 8", 9, StateKind::Loop),
    (10, b"8 5", 10, StateKind::NotAscending),
    (10, b"7 8", 10, StateKind::NotAscending),
    (10, b"8\t7", 10, StateKind::NotAnEdge),
    (12, b"7 9", 8, StateKind::NotCertified),
];

/// Checks that the text with another line is refused as the row tells.
fn check_row<R: Abort + AllocGlobal>(rt: &R, row: &(usize, &[u8], u64, StateKind)) {
    check_fault(rt, &text_with(rt, row.0, row.1), row.2, row.3);
}

#[test]
fn another_line_is_refused(rt: HostRuntime) {
    for row in &ROWS {
        check_row(&rt, row);
    }
}

#[test]
fn a_wrong_end_is_refused(rt: HostRuntime) {
    let sum = joined(&rt, BODY, b"sum 11586585196467878265\n");
    check_fault(&rt, &sum, 13, StateKind::WrongSum);
    let behind = joined(&rt, &joined(&rt, BODY, END), b"5 7\n");
    check_fault(&rt, &behind, 14, StateKind::TextBehind);
}
