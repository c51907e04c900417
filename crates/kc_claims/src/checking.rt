//! Whether claims are a certificate.
ghost use Rattle.std.specs.Prelude.{◌≡◌, ◌≤◌, ◌<◌, ◌^◌, ℕ, true, IfSome, IsErrOf, OnOk, is_none, length};
ghost use Rattle.std.specs.List.Sorted.{IsStrictlyIncreasing};
ghost use Rattle.kc_graph.specs.Peeling.{at};
ghost use Rattle.kc_claims.specs.Certificates.{AreCertificate, IsBetween, IsFirstFault, TellCoreNumbers, TellEach};
ghost use Rattle.kc_claims.specs.Checking.{IsMiscountAt};
ghost use Rattle.kc_claims.specs.declared.fault.ClaimFault.{ClaimFault};

use crate::claim::Claim;
use crate::counting::{later_neighbours, supporters};
use crate::fault::{CheckFault, ClaimFault};
use crate::taking::{Taken, told_by};
use kc_flat::FlatGraph;
use std::alloc::Global;

/// What is wrong with the number of a claim for `v`, if anything is: it has too many later neighbours, or else too few supporters.
fn miscount(
    graph: &FlatGraph,
    core: &[u32],
    rank: &[u64],
    v: u32,
    claim: &Claim,
) -> Option<ClaimFault>
    requires numbered { length core.now ≡ graph.now.size }
    requires ranked { length rank.now ≡ graph.now.size }
    requires vertex { v < graph.now.size }
    requires told { at core.now v ≡ claim.now.number }
    ensures found { IfSome result (IsMiscountAt graph.now core.now rank.now v claim.now) }
    ensures none { is_none result ≡ true → IsBetween graph.now core.now rank.now v }
{
    let number = u64::from(claim.number);
    let later = later_neighbours(graph, core, rank, v);
    if number < later {
        return Some(ClaimFault::ManyLater(*claim, later));
    }
    let supporting = supporters(graph, core, v);
    if supporting < number {
        return Some(ClaimFault::FewSupporters(*claim, supporting));
    }
    None
}

/// The first of the claims whose number is wrong by the counts of its vertex.
fn first_miscount(
    graph: &FlatGraph,
    taken: &Taken,
    ids: &[u32],
    claims: &[Claim],
) -> Option<ClaimFault>
    requires named { length ids.now ≡ graph.now.size }
    requires told { TellEach ids.now claims.now taken.now.order.items taken.now.core.items taken.now.rank.items }
    ensures found { IfSome result (IsFirstFault ids.now graph.now claims.now) }
    ensures none { is_none result ≡ true → (i : ℕ) → i < length claims.now
        → IsBetween graph.now taken.now.core.items taken.now.rank.items (at taken.now.order.items i) }
{
    for (place, claim) in claims.iter().enumerate() {
        let v = taken.order[place];
        if let Some(fault) = miscount(graph, &taken.core, &taken.rank, v, claim) {
            return Some(fault);
        }
    }
    None
}

/// Whether claims are a certificate of the core numbers of a graph, whose vertices stand for these ids: they name each id just once, and
/// each vertex has at most as many neighbours behind it as its number, and at least as many whose number is no less. Behind it stands
/// who has a greater number, or the same one and a greater rank. The rank of a claim that tells none is its place.
///
/// Then the number of each claim is the core number (Seidman 1983) of the vertex of its id.
///
/// `Faulty` comes exactly where they are none, with the first fault: a claim of an unknown id or of one that was named before, else the
/// least id that none names, else the first claim whose vertex has too many neighbours behind it or too few others. `NoMemory` comes
/// where there is none for 17 bytes a vertex. The time is linear but for a search for each id.
///
/// # Example
///
/// ```rust
/// use kc_claims::{check_claims, claims_of};
/// use kc_flat::FlatGraph;
///
/// let ids = [7, 8, 9];
/// let graph = FlatGraph::from_pairs(alloc, 3, &[(0, 1), (0, 2), (1, 2)])?;
/// let claims = claims_of(alloc, b"7 2\n8 2\n9 2\n")?;
/// let certified = check_claims(alloc, &ids, &graph, &claims).is_ok(); // true
/// let claims = claims_of(alloc, b"7 2\n8 3\n9 2\n")?;
/// let fault = check_claims(alloc, &ids, &graph, &claims).err(); // FewSupporters of the claim of 8: it has 0
/// ```
pub fn check_claims(
    alloc: Global,
    ids: &[u32],
    graph: &FlatGraph,
    claims: &[Claim],
) -> Result<(), CheckFault>
    requires ascending { IsStrictlyIncreasing ids.now }
    requires named { length ids.now ≡ graph.now.size }
    ensures certified { OnOk result (AreCertificate ids.now graph.now claims.now) }
    ensures seidman { OnOk result (TellCoreNumbers ids.now graph.now claims.now) }
    ensures faulty { (fault : ClaimFault) → IsErrOf result (CheckFault.Faulty fault) → IsFirstFault ids.now graph.now claims.now fault }
{
    let taken = told_by(alloc, graph.vertices(), ids, claims)?;
    match first_miscount(graph, &taken, ids, claims) {
        None => Ok(()),
        Some(fault) => Err(CheckFault::Faulty(fault)),
    }
}
