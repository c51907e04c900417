//! A triangle of the ids 5, 7 and 8, with 9 that hangs on 8: its edges, a certificate, and sources of both.
ghost use Rattle.std.specs.Prelude.{IfOk, List};
ghost use Rattle.kc_claims.specs.Tables.{AreTabled};
ghost use Rattle.kc_claims.specs.declared.claim.Claim.{Claim};

use kc_claims::{ClaimTable, claims_from};
use kc_io::mem_source::MemSource;
use std::test::Fail;

/// The edges, one a line, ascending.
pub(crate) const EDGES: &[u8] = b"# a triangle and one more\n5 7\n5 8\n7\t8\n8 9\n";

/// A certificate: 9 goes first, and the others have two neighbours behind them, one and none.
pub(crate) const ORDER: &[u8] = b"9 1\n5 2\n7 2\n8 2\n";

/// A source of these bytes, of which each read gives some, and some reads fail.
pub(crate) fn source_of<R: AllocGlobal>(
    rt: &R,
    bytes: &[u8],
    most: usize,
    fails: &[u32],
) -> Result<MemSource, Fail> {
    let text = Vec::from_slice(rt.alloc(), bytes).map_err(|_| "no memory")?;
    let fails = Vec::from_slice(rt.alloc(), fails).map_err(|_| "no memory")?;
    Ok(MemSource::new(text, most.max(1), fails))
}

/// The claims of a certificate, of which each read gives some bytes.
pub(crate) fn table_of<R: AllocGlobal>(
    rt: &R,
    certificate: &[u8],
    most: usize,
) -> Result<ClaimTable, Fail>
    ensures { IfOk result (λ table. (claims : List Claim) × AreTabled claims table) }
{
    let mut source = source_of(rt, certificate, most, &[])?;
    match claims_from(rt.alloc(), &mut source) {
        Ok(table) => Ok(table),
        Err(_) => Err("no claims".into()),
    }
}
