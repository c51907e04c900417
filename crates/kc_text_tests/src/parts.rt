//! What texts give whose lines are read in parts: the same, wherever pieces and parts are cut.
ghost use Rattle.std.specs.Prelude.{IfOk};
ghost use Rattle.kc_text.specs.Lines.{EndsLine};
ghost use Rattle.kc_text.specs.Parts.{ArePartsOf};

use kc_text::{
    Kind, Limits, NamedEdges, NoMemory, OneThread, ParseFault, Part, PartsReader, Refusal,
    TextReader, cut_lines, read_part, read_parts_in,
};
use std::alloc::Global;
use std::process::Abort;
use std::thread::Threads;

/// A text with comments, blank lines, CR LF and a last line without an end.
const TEXT: &[u8] = b"# a b\n1 2\n2 3\r\n\n3\t1\n4 1\n 5 4 \n%\n6 5\n6 4\n7 6";

/// A text whose eighth line is refused.
const FAULTY: &[u8] = b"# a b\n1 2\n2 3\n\n3 1\n4 1\n5 4\n6 x\n7 6\n8 7\n";

/// A text with a batch behind its edges, in which an edge line is refused.
const BATCHED: &[u8] = b"1 2\n2 3\nbatch\n+ 1 3\n- 2 3\n4 5\n";

/// Reads two parts, cut at so many bytes or before.
#[derive(Drop)]
struct TwoParts {
    most: usize,
}

impl PartsReader for TwoParts {
    fn read_parts<'a>(
        &self,
        alloc: Global,
        _threads: u32,
        bytes: &'a [u8],
    ) -> Result<Vec<Part<'a>>, NoMemory> {
        two_parts(alloc, self.most, bytes)
    }
}

/// The parts of a piece that is cut at so many bytes or before.
fn two_parts<'a>(alloc: Global, most: usize, bytes: &'a [u8]) -> Result<Vec<Part<'a>>, NoMemory>
    requires { EndsLine bytes.now }
    ensures { IfOk result (λ parts. ArePartsOf bytes.now parts.items) }
{
    let (front, back) = cut_lines(bytes, most.min(bytes.len()));
    let mut parts = read_part(alloc, front)?;
    let mut more = read_part(alloc, back)?;
    parts.append(&mut more)?;
    Ok(parts)
}

/// The limits of a text with at most so many edge lines and one batch.
fn limits(edge_lines: usize) -> Limits {
    Limits {
        edge_lines,
        ..Limits::KCORE
    }
}

/// What a text gives that is fed in two pieces.
fn read_by<P: PartsReader>(
    alloc: Global,
    hands: &P,
    threads: u32,
    edge_lines: usize,
    first: &[u8],
    second: &[u8],
) -> Result<NamedEdges, ParseFault> {
    let mut reader = TextReader::new(alloc, limits(edge_lines));
    reader.feed_by(alloc, hands, threads, first)?;
    reader.feed_by(alloc, hands, threads, second)?;
    reader.finish_edges(alloc)
}

/// Checks that two readings give the same.
fn check_same<R: Abort>(
    rt: &R,
    found: Result<NamedEdges, ParseFault>,
    wanted: Result<NamedEdges, ParseFault>,
) {
    match (found, wanted) {
        (Ok(found), Ok(wanted)) => {
            assert_eq!(rt; found.ids.as_slice(), wanted.ids.as_slice());
            assert_eq!(rt; found.edges.as_slice(), wanted.edges.as_slice());
        }
        (Err(found), Err(wanted)) => assert_eq!(rt; found, wanted),
        _ => panic!(rt; "only one of both is refused"),
    }
}

/// Checks that a text gives the same with its pieces and parts cut anywhere.
fn check_cuts<R: Abort + AllocGlobal>(rt: &R, edge_lines: usize, text: &[u8]) {
    let alloc = rt.alloc();
    for cut in 0..=text.len() {
        let (first, second) = text.split_at(cut);
        for most in 0..text.len() {
            let wanted = read_by(alloc, &OneThread, 1, edge_lines, text, b"");
            let found = read_by(alloc, &TwoParts { most }, 2, edge_lines, first, second);
            check_same(rt, found, wanted);
        }
    }
}

#[test]
fn parts_tell_the_same(rt: HostRuntime) {
    check_cuts(&rt, 9, TEXT);
    check_cuts(&rt, 9, FAULTY);
    check_cuts(&rt, 9, BATCHED);
}

#[test]
fn a_limit_is_passed_at_the_same_line(rt: HostRuntime) {
    check_cuts(&rt, 4, TEXT);
    check_cuts(&rt, 4, FAULTY);
    check_cuts(&rt, 1, BATCHED);
}

/// Checks which line is refused, and why.
fn check_fault<R: Abort>(rt: &R, fault: Option<ParseFault>, line: u64, kind: Kind) {
    assert_eq!(rt; fault, Some(ParseFault::Refused(Refusal { line, kind })));
}

#[test]
fn parts_tell_edges_and_the_line_that_is_refused(rt: HostRuntime) {
    let alloc = rt.alloc();
    let named = read_by(alloc, &TwoParts { most: 9 }, 2, 9, TEXT, b"").expect(&rt, "refused");
    let edges = [
        (0, 1),
        (1, 2),
        (0, 2),
        (0, 3),
        (3, 4),
        (4, 5),
        (3, 5),
        (5, 6),
    ];
    assert_eq!(rt; named.ids.as_slice(), [1, 2, 3, 4, 5, 6, 7].as_slice());
    assert_eq!(rt; named.edges.as_slice(), edges.as_slice());
    let fault = read_by(alloc, &TwoParts { most: 9 }, 2, 9, FAULTY, b"").err();
    check_fault(&rt, fault, 8, Kind::NotANumber);
    let fault = read_by(alloc, &TwoParts { most: 9 }, 2, 4, TEXT, b"").err();
    check_fault(&rt, fault, 7, Kind::TooManyEdgeLines);
}

/// A text of so many lines.
fn long_text(alloc: Global, lines: u32) -> Result<Vec<u8>, NoMemory>
    ensures { IfOk result (λ text. EndsLine text.items) }
{
    let mut text = Vec::new(alloc);
    for _ in 0..lines {
        text.extend_from_slice(b"1234 5678")?;
        text.push(b'\n')?;
    }
    Ok(text)
}

/// How many edges parts tell, where each part tells some.
fn count_edges<R: Abort>(rt: &R, parts: &[Part]) -> usize {
    let mut count = 0usize;
    for part in parts {
        match &part.edges {
            Some(edges) => count = count.saturating_add(edges.len()),
            None => panic!(rt; "a part with no edges"),
        }
    }
    count
}

/// Checks how many parts a text of so many lines has by so many threads, and that they tell an edge a line.
fn check_parts<R: Threads + Sync + Abort>(
    rt: &R,
    alloc: Global,
    lines: u32,
    threads: u32,
    parts: usize,
) {
    let text = long_text(alloc, lines).expect(rt, "no memory");
    let found = read_parts_in(rt, alloc, threads, &text).expect(rt, "no memory");
    assert_eq!(rt;
        (found.len(), count_edges(rt, &found)),
        (parts, lines as usize)
    );
}

#[test]
fn threads_read_parts(rt: HostRuntime) {
    check_parts(&rt, rt.alloc(), 40_000, 0, 1);
    check_parts(&rt, rt.alloc(), 40_000, 1, 1);
    check_parts(&rt, rt.alloc(), 40_000, 2, 2);
    check_parts(&rt, rt.alloc(), 40_000, 3, 3);
    check_parts(&rt, rt.alloc(), 100, 3, 1);
    check_parts(&rt, rt.alloc(), 0, 3, 1);
}
