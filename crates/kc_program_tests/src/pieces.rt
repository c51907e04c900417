//! Claims beside an ascending stream that comes in two pieces.
use crate::ascending::Told;
use crate::triangle::{ORDER, source_of, table_of};
use kc_claims::{AscendingCheck, ClaimFault, FaultyLine, LineFault, StreamFault};
use std::process::Abort;
use std::test::Fail;

/// What is told where each read gives some bytes, and some reads of the second piece fail.
fn told<R: Abort + AllocGlobal>(
    rt: &R,
    first: &[u8],
    second: &[u8],
    most: usize,
    fails: &[u32],
) -> Result<Told, Fail> {
    let table = table_of(rt, ORDER, most)?;
    let mut one = source_of(rt, first, most, &[])?;
    let mut two = source_of(rt, second, most, fails)?;
    let Ok(mut check) = AscendingCheck::begin(rt.alloc(), table) else {
        return Err("no check".into());
    };
    let Ok(None) = check.take(rt.alloc(), &mut one) else {
        return Err("the first piece is wrong".into());
    };
    match check.take(rt.alloc(), &mut two) {
        Err(fault) => Ok(Err(fault)),
        Ok(Some(id)) => Ok(Ok(Some(ClaimFault::Missing(id)))),
        Ok(None) => Ok(Ok(check.verdict())),
    }
}

/// Checks that this is told, whether few bytes come at once or many.
fn check<R: Abort + AllocGlobal>(
    rt: &R,
    first: &[u8],
    second: &[u8],
    found: Told,
) -> Result<(), Fail> {
    for bytes in [1, 3, 1000] {
        assert_eq!(rt; told(rt, first, second, bytes, &[])?, found);
    }
    Ok(())
}

#[test]
fn two_pieces_are_one_stream(rt: HostRuntime) -> Result<(), Fail> {
    check(&rt, b"5 7\n5 8\n", b"7 8\n8 9\n", Ok(None))?;
    check(&rt, b"# no line end\n5 7\n5 8", b"7 8\n8 9", Ok(None))?;
    check(&rt, b"", b"5 7\n5 8\n7 8\n8 9\n", Ok(None))
}

#[test]
fn the_first_wrong_line_of_a_piece_has_its_number(rt: HostRuntime) -> Result<(), Fail> {
    let fault = LineFault::Descends;
    let second = Err(StreamFault::Line(FaultyLine { line: 2, fault }));
    check(&rt, b"5 7\n5 8\n", b"# twice\n5 8\n7 8\n", second)?;
    check(&rt, b"7 8\n", b"\n5 9\n8 9\n", second)?;
    check(&rt, b"5 7\n", b"6 7", Ok(Some(ClaimFault::Missing(6))))
}

#[test]
fn a_read_that_fails_in_a_piece_is_told(rt: HostRuntime) -> Result<(), Fail> {
    assert_eq!(rt;
        told(&rt, b"5 7\n5 8\n", b"7 8\n8 9\n", 4, &[2])?,
        Err(StreamFault::ReadFault)
    );
    Ok(())
}
