//! Claims beside streams that may ascend.
use crate::triangle::{EDGES, ORDER, source_of, table_of};
use kc_claims::{Claim, ClaimFault, SweptClaims, check_stream, claims_of};
use std::process::Abort;
use std::test::Fail;

/// What a sweep tells, where each read gives some bytes.
fn sweep<R: Abort + AllocGlobal>(
    rt: &R,
    certificate: &[u8],
    edges: &[u8],
    bytes: usize,
    fails: &[u32],
) -> Result<SweptClaims, Fail> {
    let table = table_of(rt, certificate, bytes)?;
    let mut source = source_of(rt, edges, bytes, fails)?;
    check_stream(rt.alloc(), table, &mut source).map_err(|_| "no memory".into())
}

/// Checks that a sweep finds this, whether few bytes come at once or many.
fn check<R: Abort + AllocGlobal>(
    rt: &R,
    certificate: &[u8],
    edges: &[u8],
    found: Option<ClaimFault>,
) -> Result<(), Fail> {
    for bytes in [1, 2, 3, 7, 1000] {
        match sweep(rt, certificate, edges, bytes, &[])? {
            SweptClaims::Told(told) => assert_eq!(rt; told, found),
            SweptClaims::Untold(_) => return Err("nothing is told".into()),
        }
    }
    Ok(())
}

/// Checks that a sweep tells nothing and gives the claims again, where some reads of the edges fail.
fn check_untold<R: Abort + AllocGlobal>(
    rt: &R,
    certificate: &[u8],
    edges: &[u8],
    fails: &[u32],
) -> Result<(), Fail> {
    let claims = claims_of(rt.alloc(), certificate).map_err(|_| "no claims")?;
    for bytes in [1, 2, 3, 7, 1000] {
        match sweep(rt, certificate, edges, bytes, fails)? {
            SweptClaims::Told(_) => return Err("something is told".into()),
            SweptClaims::Untold(again) => assert_eq!(rt; again, claims),
        }
    }
    Ok(())
}

#[test]
fn a_certificate_is_told_in_any_order_of_its_ranks(rt: HostRuntime) -> Result<(), Fail> {
    check(&rt, ORDER, EDGES, None)?;
    check(&rt, b"5 2 1\n7 2 2\n8 2 3\n9 1 0\n", EDGES, None)?;
    check(&rt, b"1 1\n3000000000 1\n", b"1 3000000000", None)?;
    check(&rt, b"", b"# no edge\n", None)
}

#[test]
fn a_wrong_number_or_rank_is_the_first_fault(rt: HostRuntime) -> Result<(), Fail> {
    let claim = |line, id, number, rank| Claim {
        line,
        id,
        number,
        rank,
    };
    check_untold(&rt, b"9 1\n5 2\n7 2\n8 3\n", EDGES, &[])?;
    check(
        &rt,
        b"9 2\n5 2\n7 2\n8 2\n",
        EDGES,
        Some(ClaimFault::FewSupporters(claim(1, 9, 2, None), 1)),
    )?;
    check(
        &rt,
        b"9 1\n5 1\n7 2\n8 2\n",
        EDGES,
        Some(ClaimFault::ManyLater(claim(2, 5, 1, None), 2)),
    )?;
    Ok(())
}

#[test]
fn what_does_not_ascend_is_not_judged(rt: HostRuntime) -> Result<(), Fail> {
    let unfit: [&[u8]; 8] = [
        b"5 7\n5 8\n5 8\n7 8\n8 9\n",
        b"5 8\n5 7\n7 8\n8 9\n",
        b"5 7\n5 8\n8 7\n8 9\n",
        b"5 7\n5 8\n7 7\n7 8\n8 9\n",
        b"5 7\n5 8\n7 8\n8 9\nbatch\n",
        b"5 7\n5 8\n7 8\n8 9 1\n",
        b"5 7\n5 8\n6 8\n7 8\n8 9\n",
        b"5 7\n5 8\n7 8\n",
    ];
    for edges in unfit {
        check_untold(&rt, ORDER, edges, &[])?;
    }
    check_untold(&rt, b"9 1\n5 2\n7 2\n8 2\n9 1\n", EDGES, &[])
}

#[test]
fn claims_that_nothing_is_told_of_come_again(rt: HostRuntime) -> Result<(), Fail> {
    let unlike: &[u8] = b"# ranks, and then none\n9 1 0\n5 2 3\n\n% more\n7 2 1\n8 2\n";
    check_untold(&rt, unlike, b"5 7\n5 8\n7 8\n8 9\n8 9\n", &[])?;
    check_untold(&rt, b"5 2\n7 2\n8 2\n9 1\n", b"5 7\n5 8\n8 7\n", &[])?;
    check_untold(
        &rt,
        b"5 2 7\n7 2 7\n8 2 7\n9 1 0\n",
        b"5 7\n5 8\n6 7\n",
        &[],
    )?;
    check_untold(&rt, unlike, EDGES, &[1])?;
    check_untold(&rt, unlike, EDGES, &[2])?;
    check_untold(&rt, unlike, b"", &[])
}
