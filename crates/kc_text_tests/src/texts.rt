//! What texts give: ids and edges, or the refused line.
ghost use Rattle.std.specs.Prelude.{◌<◌};

use kc_graph::Update;
use kc_text::{Input, Kind, Limits, NoMemory, ParseFault, Refusal, parse};
use std::alloc::Global;
use std::process::Abort;
use std::test::Fail;

/// What a text gives that is not refused within limits.
fn accepted<R: Abort + AllocGlobal>(rt: &R, limits: Limits, text: &[u8]) -> Input {
    parse(rt.alloc(), limits, text).expect(rt, "refused")
}

/// Checks an input: its ids, the edges between the numbers that stand for them, and how many batches follow.
fn check_edges<R: Abort>(rt: &R, input: &Input, ids: &[u32], start: &[(u32, u32)], batches: usize) {
    assert_eq!(rt;
        (input.ids.as_slice(), input.start.as_slice()),
        (ids, start)
    );
    assert_eq!(rt; input.batches.len(), batches);
}

/// Checks what a text without batches gives: its ids, and the edges between the numbers that stand for them.
fn check_input<R: Abort + AllocGlobal>(rt: &R, text: &[u8], ids: &[u32], start: &[(u32, u32)]) {
    let input = accepted(rt, Limits::KCORE, text);
    check_edges(rt, &input, ids, start, 0);
}

/// Checks which line of a text is refused within limits, and why.
fn check_passed<R: Abort + AllocGlobal>(
    rt: &R,
    limits: Limits,
    text: &[u8],
    line: u64,
    kind: Kind,
) {
    let fault = parse(rt.alloc(), limits, text).err();
    assert_eq!(rt; fault, Some(ParseFault::Refused(Refusal { line, kind })));
}

/// Checks which line of a text is refused within the limits of `kcore`, and why.
fn check_refusal<R: Abort + AllocGlobal>(rt: &R, text: &[u8], line: u64, kind: Kind) {
    check_passed(rt, Limits::KCORE, text, line, kind);
}

/// Checks a batch of an input: its updates, and how many of its lines are overruled.
fn check_batch<R: Abort>(rt: &R, input: &Input, at: usize, updates: &[Update], overruled: u32) {
    let Some(batch) = input.batches.get(at) else {
        panic!(rt; "there is no batch {at}");
    };
    assert_eq!(rt;
        (batch.updates.as_slice(), batch.overruled),
        (updates, overruled)
    );
}

#[test]
fn edge_lines(rt: HostRuntime) {
    let triangle = [(0, 1), (0, 2), (1, 2)];
    check_input(&rt, b"", &[], &[]);
    check_input(&rt, b"1 2\n2 3\n3 1\n", &[1, 2, 3], &triangle);
    check_input(&rt, b"9 5\n5 9\n9 5\n", &[5, 9], &[(0, 1)]);
    check_input(&rt, b"7 7", &[7], &[]);
    check_input(
        &rt,
        b"4294967295 0000000000000000000000",
        &[0, 4294967295],
        &[(0, 1)],
    );
}

#[test]
fn blanks_comments_and_line_ends(rt: HostRuntime) {
    check_input(&rt, b"\n \t\n\r\n# a b\n %\xff\x00\n", &[], &[]);
    check_input(&rt, b"\t1\t 2 \r\n3 1\r", &[1, 2, 3], &[(0, 1), (0, 2)]);
}

/// Texts with a line of a wrong form, which line it is, and what is wrong.
const FAULTY_FORMS: [(&[u8], u64, Kind); 11] = [
    (b"1 2 3", 1, Kind::ExtraField),
    (b"1 2\n1\n", 2, Kind::MissingField),
    (b"1 x", 1, Kind::NotANumber),
    (b"x", 1, Kind::NotANumber),
    (b"4294967296 1", 1, Kind::NumberTooLarge),
    (b"4294967296", 1, Kind::NumberTooLarge),
    (b"99999999999999999999x 1", 1, Kind::NotANumber),
    (b"+1 2", 1, Kind::NotANumber),
    (b"1 2\x00", 1, Kind::NotANumber),
    (b"\n\xff 2\n", 2, Kind::NotANumber),
    (b"1 2\r\r\n", 1, Kind::NotANumber),
];

#[test]
fn wrong_forms(rt: HostRuntime) {
    for (text, line, kind) in &FAULTY_FORMS {
        check_refusal(&rt, text, *line, *kind);
    }
}

fn update(add: bool, u: u32, v: u32) -> Update
    requires { u < v }
{
    Update { add, u, v }
}

#[test]
fn batches(rt: HostRuntime) {
    let text = b"5 9\nbatch\n+ 7 5\n- 9 5\n\nbatch\nbatch\n+ 5 9\n";
    let input = accepted(&rt, Limits::KCORE, text);
    check_edges(&rt, &input, &[5, 7, 9], &[(0, 2)], 3);
    let first = [update(true, 0, 1), update(false, 0, 2)];
    check_batch(&rt, &input, 0, &first, 0);
    check_batch(&rt, &input, 1, &[], 0);
    check_batch(&rt, &input, 2, &[update(true, 0, 2)], 0);
}

/// Texts with a wrong line in a batch or about batches, which line it is, and what is wrong.
const FAULTY_BATCHES: [(&[u8], u64, Kind); 9] = [
    (b"+ 1 2\n", 1, Kind::UpdateOutsideBatch),
    (b"batch\n1 2\n", 2, Kind::EdgeLineInBatch),
    (b"batch\n+ 5 5\n", 2, Kind::LoopInBatch),
    (b"batch 1\n", 1, Kind::ExtraField),
    (b"batch batch\n", 1, Kind::ExtraField),
    (b"-\n", 1, Kind::MissingField),
    (b"+ 1\n", 1, Kind::MissingField),
    (b"+ 1 2 3\n", 1, Kind::ExtraField),
    (b"batch\n+ 1 2\n+ 1", 3, Kind::MissingField),
];

#[test]
fn wrong_batches(rt: HostRuntime) {
    for (text, line, kind) in &FAULTY_BATCHES {
        check_refusal(&rt, text, *line, *kind);
    }
}

#[test]
fn the_last_line_of_a_pair_decides(rt: HostRuntime) {
    let text =
        b"1 2\n2 3\nbatch\n+ 1 3\n+ 0 4294967295\n- 3 1\n- 1 2\n+ 4294967295 0\n+ 3 1\nbatch\n- 3 1\n";
    let input = accepted(&rt, Limits::KCORE, text);
    check_edges(&rt, &input, &[0, 1, 2, 3, 4294967295], &[(1, 2), (2, 3)], 2);
    let updates = [update(false, 1, 2), update(true, 0, 4), update(true, 1, 3)];
    check_batch(&rt, &input, 0, &updates, 3);
    check_batch(&rt, &input, 1, &[update(false, 1, 3)], 0);
    check_refusal(&rt, b"batch\n+ 1 2\n- 2 1\n+ 3 3\n", 4, Kind::LoopInBatch);
}

/// A text of so many batches without lines.
fn empty_batches(alloc: Global, count: usize) -> Result<Vec<u8>, NoMemory> {
    let mut text = Vec::new(alloc);
    for _ in 0..count {
        text.extend_from_slice(b"batch\n")?;
    }
    Ok(text)
}

#[test]
fn too_many_batches(rt: HostRuntime) {
    let text = empty_batches(rt.alloc(), 4097).expect(&rt, "no memory");
    assert_eq!(rt; text.len(), 4097 * 6);
    check_refusal(&rt, &text, 4097, Kind::TooManyBatches);
}

/// Limits that a short text reaches.
const SMALL: Limits = Limits {
    ids: 3,
    edge_lines: 2,
    updates: 2,
    batches: 1,
    bytes: 26,
};

/// Texts that pass one of these limits, at which line, and which.
const PASSED: [(&[u8], u64, Kind); 8] = [
    (b"1 2\n3 4\n", 2, Kind::TooManyVertices),
    (b"# 9\n1 2\n\nbatch\n+ 3 4\n", 5, Kind::TooManyVertices),
    (b"1 2\n1 3\n3 4\n", 3, Kind::TooManyVertices),
    (b"1 2\n1 2\n2 1\n", 3, Kind::TooManyEdgeLines),
    (b"batch\n+ 1 2\n- 1 2\n+ 1 2\n", 4, Kind::TooManyUpdates),
    (b"batch\nbatch\n", 2, Kind::TooManyBatches),
    (b"1 2\n2 3\nbatch\n+ 1 3\n- 1 2\n\n", 0, Kind::TooLong),
    (b"x\n1 2\n3 4\n5 6\n7 8\n9 0\n1 2\n3", 0, Kind::TooLong),
];

#[test]
fn each_limit_may_be_reached_and_not_passed(rt: HostRuntime) {
    let reached = b"1 2\n2 3\nbatch\n+ 1 3\n- 1 2\n";
    assert_eq!(rt; accepted(&rt, SMALL, reached).ids.len(), 3);
    for (text, line, kind) in &PASSED {
        check_passed(&rt, SMALL, text, *line, *kind);
    }
}

#[test]
fn a_graph_has_no_batches(rt: HostRuntime) {
    check_passed(&rt, Limits::GRAPH, b"1 2\nbatch\n", 2, Kind::TooManyBatches);
    check_passed(
        &rt,
        Limits::GRAPH,
        b"1 2\n+ 1 3\n",
        2,
        Kind::UpdateOutsideBatch,
    );
}

#[test]
fn messages_name_the_kind(rt: HostRuntime) -> Result<(), Fail> {
    let alloc = rt.alloc();
    assert_eq!(rt; Kind::ExtraField.to_string(alloc)?.as_str(), "3 ExtraField");
    assert_eq!(rt; Kind::TooLong.to_string(alloc)?.as_str(), "13 TooLong");
    Ok(())
}
