//! Claims beside streams that have to ascend.
use crate::triangle::{EDGES, ORDER, source_of, table_of};
use kc_claims::{
    Claim, ClaimFault, FaultyLine, LineFault, SourceFault, StreamFault, check_ascending,
    claims_from,
};
use kc_text::{Kind, Refusal};
use std::process::Abort;
use std::test::Fail;

/// What is told of claims and a stream.
pub type Told = Result<Option<ClaimFault>, StreamFault>;

/// What is told, where each read of either source gives some bytes, and some reads of the edges fail.
fn told<R: Abort + AllocGlobal>(
    rt: &R,
    certificate: &[u8],
    edges: &[u8],
    bytes: usize,
    fails: &[u32],
) -> Result<Told, Fail> {
    let table = table_of(rt, certificate, bytes)?;
    let mut source = source_of(rt, edges, bytes, fails)?;
    Ok(check_ascending(rt.alloc(), table, &mut source))
}

/// Checks why a certificate gives no claims, whether few bytes come at once or many.
fn check_refused<R: Abort + AllocGlobal>(
    rt: &R,
    certificate: &[u8],
    line: u64,
    kind: Kind,
) -> Result<(), Fail> {
    for bytes in [1, 2, 3, 7, 1000] {
        let mut source = source_of(rt, certificate, bytes, &[])?;
        let fault = claims_from(rt.alloc(), &mut source).err();
        assert_eq!(rt; fault, Some(SourceFault::Refused(Refusal { line, kind })));
    }
    Ok(())
}

/// Checks that this is told, whether few bytes come at once or many.
fn check<R: Abort + AllocGlobal>(
    rt: &R,
    certificate: &[u8],
    edges: &[u8],
    found: Told,
) -> Result<(), Fail> {
    for bytes in [1, 2, 3, 7, 1000] {
        assert_eq!(rt; told(rt, certificate, edges, bytes, &[])?, found);
    }
    Ok(())
}

/// Checks that this line of a stream is the first that is wrong.
fn check_line<R: Abort + AllocGlobal>(
    rt: &R,
    edges: &[u8],
    line: u64,
    fault: LineFault,
) -> Result<(), Fail> {
    check(
        rt,
        ORDER,
        edges,
        Err(StreamFault::Line(FaultyLine { line, fault })),
    )
}

/// A claim with a rank.
fn ranked_claim(line: u64, id: u32, number: u32, rank: u32) -> Claim {
    Claim {
        line,
        id,
        number,
        rank: Some(rank),
    }
}

/// A claim without a rank.
fn claim(line: u64, id: u32, number: u32) -> Claim {
    Claim {
        line,
        id,
        number,
        rank: None,
    }
}

#[test]
fn a_certificate_is_told_of_a_stream(rt: HostRuntime) -> Result<(), Fail> {
    check(&rt, ORDER, EDGES, Ok(None))?;
    check(&rt, b"5 2 1\n7 2 2\n8 2 3\n9 1 0\n", EDGES, Ok(None))?;
    check(&rt, b"", b"# no edge\n", Ok(None))
}

#[test]
fn a_wrong_claim_is_told_of_a_stream(rt: HostRuntime) -> Result<(), Fail> {
    let few = ClaimFault::FewSupporters(claim(4, 8, 3), 0);
    check(&rt, b"9 1\n5 2\n7 2\n8 3\n", EDGES, Ok(Some(few)))?;
    let many = ClaimFault::ManyLater(claim(2, 5, 1), 2);
    check(&rt, b"9 1\n5 1\n7 2\n8 2\n", EDGES, Ok(Some(many)))?;
    let twice = ClaimFault::Repeated(claim(5, 9, 1));
    check(&rt, b"9 1\n5 2\n7 2\n8 2\n9 1\n", b"8 7", Ok(Some(twice)))
}

#[test]
fn an_id_without_a_line_of_its_own_is_told(rt: HostRuntime) -> Result<(), Fail> {
    let unknown = ClaimFault::Unknown(claim(1, 6, 0));
    check(&rt, b"6 0\n9 1\n5 2\n7 2\n8 2\n", EDGES, Ok(Some(unknown)))?;
    let missing = ClaimFault::Missing(6);
    check(&rt, ORDER, b"5 7\n5 8\n6 8\n8 7\n", Ok(Some(missing)))
}

#[test]
fn the_first_line_that_does_not_ascend_is_told(rt: HostRuntime) -> Result<(), Fail> {
    check_line(&rt, b"5 7\n5 8\n5 8\n7 8\n", 3, LineFault::Descends)?;
    check_line(&rt, b"5 8\n\n5 7\n7 8\n8 9\n", 3, LineFault::Descends)?;
    check_line(&rt, b"# a loop\n5 5\n", 2, LineFault::Descends)?;
    check_line(&rt, b"5 7\n8 5\n6 8\n", 2, LineFault::Descends)?;
    check_line(&rt, b"7 8\n5 9", 2, LineFault::Descends)
}

#[test]
fn the_first_line_that_is_no_edge_is_told(rt: HostRuntime) -> Result<(), Fail> {
    let refused = |kind| LineFault::Refused(kind);
    check_line(&rt, b"5 7\n5 8 1\n8 7\n", 2, refused(Kind::ExtraField))?;
    check_line(&rt, b"5 7\nbatch\n", 2, refused(Kind::TooManyBatches))?;
    check_line(&rt, b"+ 5 7\n", 1, refused(Kind::UpdateOutsideBatch))?;
    check_line(&rt, b"5 7\n5 x", 2, refused(Kind::NotANumber))
}

#[test]
fn the_first_line_that_is_no_claim_is_told(rt: HostRuntime) -> Result<(), Fail> {
    check_refused(&rt, b"9 1\n5\n7 2 2 2\n", 2, Kind::MissingField)?;
    check_refused(&rt, b"# none\n\n9 1 2 3\nx\n", 3, Kind::ExtraField)?;
    check_refused(&rt, b"9 1\n5 2\n7 2\n8 y", 4, Kind::NotANumber)?;
    check_refused(&rt, b"4294967296 1\n", 1, Kind::NumberTooLarge)
}

#[test]
fn the_line_of_a_claim_counts_comments(rt: HostRuntime) -> Result<(), Fail> {
    let few = ClaimFault::FewSupporters(ranked_claim(5, 8, 3, 0), 0);
    check(
        &rt,
        b"# one\n9 1\n\n5 2\n8 3 0\n7 2 5",
        EDGES,
        Ok(Some(few)),
    )?;
    let many = ClaimFault::ManyLater(claim(2, 8, 2), 3);
    check(&rt, b"\n8 2\n9 2\n5 2\n7 3\n", EDGES, Ok(Some(many)))
}

#[test]
fn of_wrong_claims_the_first_of_the_file_is_told(rt: HostRuntime) -> Result<(), Fail> {
    let few = ClaimFault::FewSupporters(ranked_claim(1, 8, 3, 0), 1);
    check(&rt, b"8 3 0\n5 3 0\n7 2\n9 1\n", EDGES, Ok(Some(few)))?;
    let few = ClaimFault::FewSupporters(ranked_claim(3, 7, 3, 2), 1);
    check(
        &rt,
        b"5 2 1\n# ranks\n7 3 2\n8 3 3\n9 1 0\n",
        EDGES,
        Ok(Some(few)),
    )
}

#[test]
fn a_read_that_fails_is_told(rt: HostRuntime) -> Result<(), Fail> {
    assert_eq!(rt;
        told(&rt, ORDER, EDGES, 4, &[1])?,
        Err(StreamFault::ReadFault)
    );
    assert_eq!(rt;
        told(&rt, ORDER, EDGES, 4, &[4])?,
        Err(StreamFault::ReadFault)
    );
    Ok(())
}
