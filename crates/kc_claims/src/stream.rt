//! Whether claims are a certificate of the core numbers of a graph whose edges come as a stream.
ghost use Rattle.std.specs.Prelude.{◌≡◌, ℕ, IfOk, List, [], Option, Some};
ghost use Rattle.kc_claims.specs.Pieces.{HasTakenText, TellsClaims};
ghost use Rattle.kc_claims.specs.Streams.{IsSwept};
ghost use Rattle.kc_claims.specs.Tables.{AreTabled};
ghost use Rattle.kc_claims.specs.declared.claim.Claim.{Claim};

use crate::ascending::AscendingCheck;
use crate::claim::Claim;
use crate::claimed::{begin_for, ids_of};
use crate::fault::{ClaimFault, StreamFault};
use crate::judging::{claims_of, first_miscount, first_uncounted};
use crate::table::ClaimTable;
use kc_graph::NoMemory;
use kc_io::source::Source;
use std::alloc::Global;

/// What a sweep over a stream tells of claims.
#[derive(Debug, Drop)]
pub enum SweptClaims {
    /// That they are a certificate, where there is no fault, or else the first one.
    Told(Option<ClaimFault>),
    /// Nothing. These are the claims again, in their order.
    Untold(Vec<Claim>),
}

/// Gives the claims again.
fn untold(alloc: Global, check: &AscendingCheck) -> Result<SweptClaims, NoMemory>
    requires { (claims : List Claim) × TellsClaims claims check.now }
    ensures { (claims : List Claim) (known : Option (List ℕ)) → TellsClaims claims check.now → IfOk result (IsSwept claims known) }
{
    let claims = claims_of(alloc, &check.insisting.sweep, &check.lines)?;
    Ok(SweptClaims::Untold(claims))
}

/// What the counts tell of the claims, where they show that each id is named.
fn told(alloc: Global, check: &AscendingCheck) -> Result<SweptClaims, NoMemory>
    requires { (claims : List Claim) × (known : Option (List ℕ)) × HasTakenText claims known check.now }
    ensures { (claims : List Claim) (known : Option (List ℕ)) → HasTakenText claims known check.now → IfOk result (IsSwept claims known) }
{
    match first_uncounted(&check.insisting.sweep, &check.lines) {
        Some(_) => untold(alloc, check),
        None => Ok(SweptClaims::Told(first_miscount(&check.insisting.sweep, &check.lines))),
    }
}

/// Sweeps over a stream, from where the check has begun.
fn sweep<S: Source>(
    alloc: Global,
    check: AscendingCheck,
    source: &mut S,
) -> Result<SweptClaims, NoMemory>
    requires { (claims : List Claim) × HasTakenText claims (Some []) check }
    ensures { (claims : List Claim) → HasTakenText claims (Some []) check → IfOk result (IsSwept claims (S.left source.old)) }
{
    let mut check = check;
    match check.take(alloc, source) {
        Ok(None) => told(alloc, &check),
        Ok(Some(_)) => untold(alloc, &check),
        Err(StreamFault::Line(_)) => untold(alloc, &check),
        Err(StreamFault::ReadFault) => untold(alloc, &check),
        Err(StreamFault::NoMemory) => Err(NoMemory),
    }
}

/// Whether claims are a certificate of the core numbers of the graph that the bytes of a source mean. The graph is not made: each of its
/// edges is counted as it comes. With the claims it takes 20 bytes a vertex and a buffer, and half a byte more where the ids are no row. It takes
/// 4 bytes a vertex more where neither the ids of the claims ascend nor the rank of each is its place.
///
/// Each edge is to have one line, the lesser id first, and each line is to be above the one before it, by its first id and then by its second.
/// There may be comments. Where they are no certificate it gives the first fault, as [`check_claims`](crate::check_claims) does for the graph.
///
/// `Untold` comes where the lines are not such lines, or name another id than the claims do, or where not each claim has an id of its own. It
/// comes where the source fails. It also comes where the counts do not show that each id is named, since an id without a later neighbour and a
/// supporter may have no line. Then nothing is known of the claims, and `check_claims` tells of the graph. The claims take 24 bytes each then.
///
/// `NoMemory` comes where there is none, and where there are more than 2^40 edges, 2^32 - 2 claims or 2^63 - 2 bytes.
///
/// # Example
///
/// ```rust
/// use kc_claims::{check_stream, claims_from};
/// use kc_io::mem_source::MemSource;
///
/// let text = Vec::from_slice(alloc, b"7 2\n8 2\n9 2\n")?;
/// let mut certificate = MemSource::new(text, 4, Vec::new(alloc)); // four bytes at a time
/// let claims = claims_from(alloc, &mut certificate)?;
/// let text = Vec::from_slice(alloc, b"7 8\n7 9\n8 9\n")?;
/// let mut source = MemSource::new(text, 4, Vec::new(alloc));
/// let swept = check_stream(alloc, claims, &mut source)?; // Told(None): these are the core numbers
/// ```
pub fn check_stream<S: Source>(
    alloc: Global,
    table: ClaimTable,
    source: &mut S,
) -> Result<SweptClaims, NoMemory>
    requires { (claims : List Claim) × AreTabled claims table }
    ensures { (claims : List Claim) → AreTabled claims table → IfOk result (IsSwept claims (S.left source.old)) }
{
    let ids = ids_of(alloc, &table)?;
    if ids.len() < table.ids.len() {
        return Ok(SweptClaims::Untold(table.claims(alloc)?));
    }
    match begin_for(alloc, ids, table) {
        Ok(claimed) => sweep(alloc, AscendingCheck::new(claimed), source),
        Err(_) => Err(NoMemory),
    }
}
