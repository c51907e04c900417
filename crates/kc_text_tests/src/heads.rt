//! What the head of a text tells: that it is no edge list, what its first pair is, and where a line of it is wrong.
use kc_dialect::{Dialect, EdgeFault, Separator, Signature, edge_fault, first_pair};
use kc_head::{
    Foreign, HeadFault, foreign_in, line_in, may_be_sizes, read_head, show_place, wrong_column,
};
use kc_io::mem_source::MemSource;
use kc_io::source::Source;
use kc_text::{Kind, Limits, Refusal, TextReader};
use std::process::Abort;
use std::test::Fail;

/// Checks where a line is wrong in a list of two ids a line.
fn check_fault<R: Abort>(rt: &R, line: &[u8], column: u64, kind: Kind) -> Result<(), Fail> {
    assert_eq!(rt; edge_fault(line), Some(EdgeFault { column, kind }));
    Ok(())
}

#[test]
fn faults_of_edge_lines(rt: HostRuntime) -> Result<(), Fail> {
    check_fault(&rt, b"1 2 1217567877", 5, Kind::ExtraField)?;
    check_fault(&rt, b"from to", 1, Kind::NotANumber)?;
    check_fault(&rt, b" \t12 0x3", 6, Kind::NotANumber)?;
    check_fault(&rt, b"1,2", 1, Kind::NotANumber)?;
    check_fault(&rt, b"3", 2, Kind::MissingField)?;
    check_fault(&rt, b"3 ", 3, Kind::MissingField)?;
    check_fault(&rt, b"2 9007199254740993", 3, Kind::NumberTooLarge)?;
    check_fault(&rt, b"4294967296 x", 1, Kind::NumberTooLarge)?;
    assert_eq!(rt; edge_fault(b" 4294967295\t0002 "), None);
    Ok(())
}

#[test]
fn texts_that_are_no_edge_lists(rt: HostRuntime) -> Result<(), Fail> {
    assert_eq!(rt;
        foreign_in(b"\x1f\x8b\x08\x00"),
        Some(Foreign::Marked(Signature::Gzip))
    );
    assert_eq!(rt;
        foreign_in(b"%%MatrixMarket matrix\n3 3 1\n"),
        Some(Foreign::Marked(Signature::MatrixMarket))
    );
    assert_eq!(rt;
        foreign_in(b"{\"source\":1,\"target\":2}\n"),
        Some(Foreign::Json)
    );
    assert_eq!(rt; foreign_in(b"{1 2}\n"), None);
    assert_eq!(rt; foreign_in(b"1 2\r2 3\r"), Some(Foreign::BareReturns));
    assert_eq!(rt; foreign_in(b"# none\r1 2"), Some(Foreign::BareReturns));
    assert_eq!(rt; foreign_in(b"1 2\r"), None);
    assert_eq!(rt; foreign_in(b"1 2\r\n2 3\r\n"), None);
    assert_eq!(rt; foreign_in(b"a\rb\n"), None);
    assert_eq!(rt; foreign_in(b""), None);
    Ok(())
}

#[test]
fn first_pairs_of_texts(rt: HostRuntime) -> Result<(), Fail> {
    let plain = Dialect::PLAIN;
    let commas = Dialect {
        columns: (3, 1),
        separator: Separator::Comma,
        skip: 1,
        ..Dialect::PLAIN
    };
    assert_eq!(rt; first_pair(plain, b""), None);
    assert_eq!(rt; first_pair(plain, b"\xef\xbb\xbf9 5\n1 2\n"), Some((9, 5)));
    assert_eq!(rt;
        first_pair(plain, b"# 3 2\n\na b\n7 4294967296\n5 9 x"),
        Some((5, 9))
    );
    assert_eq!(rt; first_pair(commas, b"4,x,3\n2,y,1\n"), Some((1, 2)));
    Ok(())
}

/// Checks whether a pair may be the sizes of the graph that all others of a text tell.
fn check_sizes<R: Abort + AllocGlobal>(rt: &R, text: &[u8], pair: (u32, u32), may_be: bool) {
    let mut reader = TextReader::new(rt.alloc(), Limits::GRAPH);
    reader.feed(rt.alloc(), text).expect(rt, "memory");
    let named = reader.finish_edges(rt.alloc()).expect(rt, "edges");
    assert_eq!(rt; may_be_sizes(pair, &named), may_be);
}

#[test]
fn pairs_that_may_be_sizes(rt: HostRuntime) -> Result<(), Fail> {
    check_sizes(&rt, b"9 2\n1 2\n2 3\n", (9, 2), true);
    check_sizes(&rt, b"3 3\n1 2\n2 3\n3 1\n", (3, 3), true);
    check_sizes(&rt, b"2 3\n1 2\n2 1\n1 2\n2 2\n", (2, 3), true);
    check_sizes(&rt, b"9 3\n1 2\n2 3\n", (9, 3), false);
    check_sizes(&rt, b"9 1\n1 2\n2 3\n", (9, 1), false);
    check_sizes(&rt, b"2 1\n3 2\n", (2, 1), false);
    check_sizes(&rt, b"5 0\n", (5, 0), false);
    check_sizes(&rt, b"0 1\n1 0\n", (0, 1), false);
    Ok(())
}

#[test]
fn lines_of_heads(rt: HostRuntime) -> Result<(), Fail> {
    let head = b"\xef\xbb\xbf1 2\r\n\n3 4";
    assert_eq!(rt; line_in(head, 0), None);
    assert_eq!(rt; line_in(head, 1), Some(b"1 2".as_slice()));
    assert_eq!(rt; line_in(head, 2), Some(b"".as_slice()));
    assert_eq!(rt; line_in(head, 3), Some(b"3 4".as_slice()));
    assert_eq!(rt; line_in(head, 4), None);
    Ok(())
}

/// The column of the field for which a line is refused.
fn column_of(head: &[u8], line: u64, kind: Kind) -> Option<u64> {
    wrong_column(head, Refusal { line, kind })
}

#[test]
fn columns_of_refused_lines(rt: HostRuntime) -> Result<(), Fail> {
    let head = b"\xef\xbb\xbf1 b\n+ 1 2\n3 4 5\n";
    assert_eq!(rt; column_of(head, 1, Kind::NotANumber), Some(3));
    assert_eq!(rt; column_of(head, 2, Kind::UpdateOutsideBatch), None);
    assert_eq!(rt; column_of(head, 3, Kind::ExtraField), Some(5));
    assert_eq!(rt; column_of(head, 3, Kind::TooManyEdgeLines), None);
    assert_eq!(rt; column_of(head, 4, Kind::NotANumber), None);
    assert_eq!(rt; column_of(head, 0, Kind::TooLong), None);
    Ok(())
}

/// Checks how a line is shown with a caret under a column.
fn check_shown<R: Abort + AllocGlobal>(
    rt: &R,
    head: &[u8],
    line: u64,
    column: Option<u64>,
    text: &[u8],
) -> Result<(), Fail> {
    let mut out = Vec::new(rt.alloc());
    show_place(&mut out, head, line, column)?;
    assert_eq!(rt; out.as_slice(), text);
    Ok(())
}

#[test]
fn lines_with_a_caret(rt: HostRuntime) -> Result<(), Fail> {
    check_shown(&rt, b"1 2\n2 bob\n", 2, Some(3), b"    2 bob\n      ^\n")?;
    check_shown(&rt, b"7\n", 1, Some(2), b"    7\n     ^\n")?;
    check_shown(&rt, b"\xe4\t1", 1, Some(3), b"    \\xe4\\t1\n          ^\n")?;
    check_shown(&rt, b"1 2\n", 1, None, b"")?;
    check_shown(&rt, b"1 2\n", 2, Some(1), b"")?;
    check_shown(&rt, b"1 2\n", 1, Some(5), b"")?;
    Ok(())
}

#[test]
fn a_long_line_is_shown_round_its_column(rt: HostRuntime) -> Result<(), Fail> {
    let mut line = vec![in rt.alloc(); b'7'; 100]?;
    line.extend_from_slice(b" x ")?;
    let mut text = Vec::from_slice(rt.alloc(), b"    ")?;
    text.extend_from_slice(&[b'7'; 39])?;
    text.extend_from_slice(b" x \n    ")?;
    text.extend_from_slice(&[b' '; 40])?;
    text.extend_from_slice(b"^\n")?;
    check_shown(&rt, &line, 1, Some(102), &text)
}

/// A source in memory that gives three bytes at a time, and fails at these calls.
fn source_of<R: Abort + AllocGlobal>(rt: &R, fails: &[u32]) -> MemSource {
    let text = Vec::from_slice(rt.alloc(), b"1 2\n2 3\n").expect(rt, "memory");
    let fails = Vec::from_slice(rt.alloc(), fails).expect(rt, "memory");
    MemSource::new(text, 3, fails)
}

#[test]
fn a_head_is_gathered_from_small_reads(rt: HostRuntime) -> Result<(), Fail> {
    let mut source = source_of(&rt, &[]);
    let head = read_head(rt.alloc(), &mut source).expect(&rt, "a head");
    assert_eq!(rt; head.as_slice(), b"1 2\n2 3\n".as_slice());
    let mut one = [0u8];
    assert_eq!(rt; source.read(&mut one).ok(), Some(0));
    Ok(())
}

#[test]
fn a_fault_in_the_middle_of_a_head_is_told(rt: HostRuntime) -> Result<(), Fail> {
    let mut source = source_of(&rt, &[2]);
    let fault = read_head(rt.alloc(), &mut source).err();
    assert_eq!(rt; fault, Some(HeadFault::ReadFault));
    Ok(())
}
