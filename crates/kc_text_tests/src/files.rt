//! The plain texts of files as people hold them, and their bad lines.
ghost use Rattle.std.specs.Prelude.{◌≤◌, length};

use kc_dialect::{
    BadKind, BadLine, BadLines, Dialect, Ids, RewriteFault, Rewriter, Separator, SkippedLines,
};
use std::alloc::Global;
use std::process::Abort;

/// The first two columns, as they are parted.
fn parted(separator: Separator) -> Dialect {
    Dialect {
        separator,
        ..Dialect::PLAIN
    }
}

/// Names in the first two columns, as they are parted.
fn named(separator: Separator) -> Dialect {
    Dialect {
        ids: Ids::Names,
        ..parted(separator)
    }
}

/// The plain text of a text that is fed in two pieces, and the lines that were passed over.
fn rewritten(
    alloc: Global,
    dialect: Dialect,
    first: &[u8],
    second: &[u8],
) -> Result<(Vec<u8>, SkippedLines), RewriteFault> {
    let mut rewriter = Rewriter::new(alloc, dialect);
    let mut out = Vec::new(alloc);
    rewriter.feed(first, &mut out)?;
    rewriter.feed(second, &mut out)?;
    let skipped = rewriter.finish(&mut out)?;
    Ok((out, skipped))
}

/// Checks the plain text of a text without bad lines that comes in two pieces.
fn check_pieces<R: Abort + AllocGlobal>(
    rt: &R,
    dialect: Dialect,
    first: &[u8],
    second: &[u8],
    plain: &[u8],
) {
    let rewritten = rewritten(rt.alloc(), dialect, first, second);
    let (out, skipped) = rewritten.expect(rt, "a bad line");
    assert_eq!(rt; (out.as_slice(), skipped.count), (plain, 0));
}

/// Checks the plain text of a text without bad lines, that comes whole and cut near its middle.
fn check_text<R: Abort + AllocGlobal>(rt: &R, dialect: Dialect, text: &[u8], plain: &[u8]) {
    let (first, second) = text.split_at(text.len() / 2);
    check_pieces(rt, dialect, first, second, plain);
    check_pieces(rt, dialect, text, b"", plain);
}

/// Checks which line of a text ends the reading, and why.
fn check_bad<R: Abort + AllocGlobal>(
    rt: &R,
    dialect: Dialect,
    text: &[u8],
    line: u64,
    column: u64,
    kind: BadKind,
) {
    let fault = rewritten(rt.alloc(), dialect, text, b"").err();
    let bad = BadLine { line, column, kind };
    assert_eq!(rt; fault, Some(RewriteFault::Bad(bad)));
}

#[test]
fn files_between_blanks(rt: HostRuntime) {
    let plain = Dialect::PLAIN;
    check_text(&rt, plain, b"", b"");
    check_text(
        &rt,
        plain,
        b"# Nodes: 3\n%\n1 2\r\n\n 2\t 3",
        b"\n\n1 2\n\n2 3\n",
    );
    // with times, weights and data behind the ends
    check_text(
        &rt,
        plain,
        b"9 8 1217567877\n1 3 1217606247\n",
        b"9 8\n1 3\n",
    );
    check_text(&rt, plain, b"% asym\n1\t2\t1\t1082040961\n", b"\n1 2\n");
    check_text(
        &rt,
        plain,
        b"1 2 {}\n1 3 {'weight': 7}\n4 5 # why\n",
        b"1 2\n1 3\n4 5\n",
    );
    check_text(&rt, plain, b"\xef\xbb\xbf1 2\n7 7\n", b"1 2\n7 7\n");
    check_text(&rt, plain, b"4294967295 007", b"4294967295 007\n");
}

#[test]
fn files_with_headers(rt: HostRuntime) {
    let sized = Dialect {
        skip: 1,
        ..Dialect::PLAIN
    };
    check_text(&rt, sized, b"3 2\n0 1\n1 2\n", b"\n0 1\n1 2\n");
    let matrix = Dialect {
        skip: 2,
        ..Dialect::PLAIN
    };
    check_text(
        &rt,
        matrix,
        b"%%MatrixMarket matrix\n34 34 78\n2 1\n",
        b"\n\n2 1\n",
    );
    let table = Dialect {
        skip: 1,
        ..parted(Separator::Comma)
    };
    check_text(&rt, table, b"source,target\n1,2\n", b"\n1 2\n");
}

#[test]
fn files_between_separators(rt: HostRuntime) {
    let comma = parted(Separator::Comma);
    check_text(
        &rt,
        comma,
        b"6,2,4,1289241911.72836\n1, 3 \r\n# a,b\n\n",
        b"6 2\n1 3\n\n\n",
    );
    check_text(
        &rt,
        comma,
        b"\"1\",\"2\"\n \"3\" , 4,\"a, b\"\n",
        b"1 2\n3 4\n",
    );
    check_text(&rt, parted(Separator::Semicolon), b"1;2;x y\n", b"1 2\n");
    check_text(&rt, parted(Separator::Tab), b"1\t2\ta b\n", b"1 2\n");
    let behind = Dialect {
        columns: (3, 2),
        ..comma
    };
    check_text(&rt, behind, b"\"Doe, John\",1,2\n", b"2 1\n");
}

#[test]
fn files_of_names(rt: HostRuntime) {
    let blank = named(Separator::Blank);
    check_text(
        &rt,
        blank,
        b"# who whom\nAnn Bob 3\r\n\n  Bob\tEve\n",
        b"\nAnn Bob\n\nBob Eve\n",
    );
    // words of a plain text, a name like a comment in the second column, digits, and letters of more than one byte
    check_text(
        &rt,
        blank,
        b"batch +\n- #1\n12 013\n\xc3\xa4 \xe6\x9d\xb1",
        b"batch +\n- #1\n12 013\n\xc3\xa4 \xe6\x9d\xb1\n",
    );
    check_text(
        &rt,
        named(Separator::Comma),
        b"\"Doe,J\", O'Neil ,x y\n",
        b"Doe,J O'Neil\n",
    );
}

/// Lines that end the reading: how ids and columns are given, the text, which line and column it is, and what is wrong.
type Bad = (Dialect, &'static [u8], u64, u64, BadKind);

/// Names between blanks.
const NAMES: Dialect = Dialect {
    ids: Ids::Names,
    ..Dialect::PLAIN
};

/// Numbers between commas.
const COMMA: Dialect = Dialect {
    separator: Separator::Comma,
    ..Dialect::PLAIN
};

/// Names between commas.
const COMMA_NAMES: Dialect = Dialect {
    separator: Separator::Comma,
    ..NAMES
};

/// Lines without two names. The last three have a control character, the one behind the letters, and bytes that are no UTF-8.
const NAMELESS: [Bad; 7] = [
    (NAMES, b"Ann Bob\nAnn\n", 2, 4, BadKind::MissingColumn),
    (COMMA_NAMES, b"Ann,\n", 1, 5, BadKind::NotAName),
    (COMMA_NAMES, b"Ann, New York\n", 1, 6, BadKind::NotAName),
    (COMMA_NAMES, b"Ann,\"a\tb\"\n", 1, 5, BadKind::NotAName),
    (NAMES, b"Ann B\x07b\n", 1, 5, BadKind::NotAName),
    (NAMES, b"\x7f Bob\n", 1, 1, BadKind::NotAName),
    (NAMES, b"Ann B\xe4r\n", 1, 5, BadKind::NotAName),
];

#[test]
fn lines_without_names_end_the_reading(rt: HostRuntime) {
    for (dialect, text, line, column, kind) in &NAMELESS {
        check_bad(&rt, *dialect, text, *line, *column, *kind);
    }
}

/// A dialect whose first column is none.
const NOWHERE: Dialect = Dialect {
    columns: (0, 1),
    ..Dialect::PLAIN
};

/// Lines without two numbers.
const NUMBERLESS: [Bad; 9] = [
    (Dialect::PLAIN, b"1 2\n  3\n", 2, 4, BadKind::MissingColumn),
    (
        Dialect::PLAIN,
        b"1 2\n\n3  x4 5\n",
        3,
        4,
        BadKind::NotANumber,
    ),
    (Dialect::PLAIN, b"+1 2\n", 1, 1, BadKind::NotANumber),
    (Dialect::PLAIN, b"// a\n", 1, 1, BadKind::NotANumber),
    (Dialect::PLAIN, b"1,2", 1, 1, BadKind::NotANumber),
    (
        Dialect::PLAIN,
        b"1 4294967296",
        1,
        3,
        BadKind::NumberTooLarge,
    ),
    (COMMA, b"1, \"a\"\n", 1, 4, BadKind::NotANumber),
    (COMMA, b"1,,2\n", 1, 3, BadKind::NotANumber),
    (NOWHERE, b"1 2\n", 1, 4, BadKind::MissingColumn),
];

#[test]
fn bad_lines_end_the_reading(rt: HostRuntime) {
    for (dialect, text, line, column, kind) in &NUMBERLESS {
        check_bad(&rt, *dialect, text, *line, *column, *kind);
    }
}

/// So many lines were passed over. Five are kept, of which the last has no number at its beginning.
fn check_skipped<R: Abort>(rt: &R, skipped: &SkippedLines, count: u64, line: u64) {
    let last = BadLine {
        line,
        column: 1,
        kind: BadKind::NotANumber,
    };
    assert_eq!(rt; (skipped.count, skipped.first.len()), (count, 5));
    assert_eq!(rt; skipped.first.last().copied(), Some(last));
}

#[test]
fn bad_lines_are_passed_over(rt: HostRuntime) {
    let lenient = Dialect {
        bad_lines: BadLines::Skip,
        ..Dialect::PLAIN
    };
    let rewritten = rewritten(rt.alloc(), lenient, b"a b\n1 2\nc\nd\ne", b"\nf\n3 4\ng");
    let (out, skipped) = rewritten.expect(&rt, "no memory");
    assert_eq!(rt; out.as_slice(), b"\n1 2\n\n\n\n\n3 4\n\n".as_slice());
    check_skipped(&rt, &skipped, 6, 6);
}
