//! Tells what is wrong with claims by the counts of their vertices, and the claims again.
ghost use Rattle.std.specs.Prelude.{◌≡◌, ◌≤◌, ◌<◌, ℕ, IfOk, IfSome, List, is_none, length, slice_set, true};
ghost use Rattle.kc_graph.specs.Peeling.{at};
ghost use Rattle.kc_claims.specs.Certificates.{claim_at};
ghost use Rattle.kc_claims.specs.Insisting.{HasCount, IsCountFault, IsFirstUncounted};
ghost use Rattle.kc_claims.specs.Judging.{AreCounted, HasEach, IsFirstWrong, is_earlier, is_wrong, claim_place};
ghost use Rattle.kc_claims.specs.Sweeping.{Agrees, IsFirstMiscount, IsMiscountOf};
ghost use Rattle.kc_claims.specs.declared.claim.Claim.{Claim};

use crate::claim::Claim;
use crate::claimed::{ClaimLines, ClaimPlaces};
use crate::fault::ClaimFault;
use crate::stretch::claim_at;
use crate::sweep::Sweep;
use kc_graph::NoMemory;
use std::alloc::Global;

/// It stands for a claim that comes later.
const NO_CLAIM: Claim = Claim {
    line: 0,
    id: 0,
    number: 0,
    rank: None,
};

/// What may be wrong with the counts of a vertex.
#[derive(Clone, Copy)]
pub(crate) enum Wrong {
    /// The number that it is told does not lie between them.
    Miscounted,
    /// Nothing is counted.
    Uncounted,
}

/// Whether this is wrong with a number and these counts.
fn is_wrong(wrong: Wrong, core: u32, later: u32, supporters: u32) -> bool
    ensures { result ≡ is_wrong wrong core later supporters }
{
    match wrong {
        Wrong::Miscounted => core < later || supporters < core,
        Wrong::Uncounted => later == 0 && supporters == 0,
    }
}

/// The place of the claim of a vertex.
fn claim_place(sweep: &Sweep, places: &ClaimPlaces, v: usize) -> u32
    requires each { HasEach sweep.now places.now }
    requires vertex { v < length sweep.now.core.items }
    ensures { result ≡ claim_place places.now sweep.now.rank.items v }
{
    match places {
        ClaimPlaces::AsIds => v as u32,
        ClaimPlaces::AsRanks => sweep.rank[v],
        ClaimPlaces::Column(places) => places[v],
    }
}

/// Whether the claim of a vertex stands before that of another, if there is one.
fn is_earlier(sweep: &Sweep, places: &ClaimPlaces, v: usize, other: Option<usize>) -> bool
    requires each { HasEach sweep.now places.now }
    requires vertex { v < length sweep.now.core.items }
    requires other { IfSome other (λ u. u < length sweep.now.core.items) }
    ensures { result ≡ is_earlier places.now sweep.now.rank.items v other }
{
    match other {
        None => true,
        Some(u) => claim_place(sweep, places, v) < claim_place(sweep, places, u),
    }
}

/// The vertex with which this is wrong whose claim stands first.
fn first_wrong(wrong: Wrong, sweep: &Sweep, places: &ClaimPlaces) -> Option<usize>
    requires { HasEach sweep.now places.now }
    ensures { IsFirstWrong wrong sweep.now places.now (length sweep.now.core.items) result }
{
    let mut first: Option<usize> = None;
    for v in 0..sweep.core.len() {
        let here = is_wrong(wrong, sweep.core[v], sweep.later[v], sweep.supporters[v]);
        if here && is_earlier(sweep, places, v, first) {
            first = Some(v);
        }
    }
    first
}

/// The claim of a vertex.
fn vertex_claim(sweep: &Sweep, lines: &ClaimLines, v: usize) -> Claim
    requires counted { (claims : List Claim) × (order : List ℕ) × AreCounted claims order sweep.now lines.now }
    requires vertex { v < length sweep.now.core.items }
    ensures { (claims : List Claim) (order : List ℕ) (i : ℕ) → AreCounted claims order sweep.now lines.now → i < length claims
        → at order i ≡ v → result ≡ claim_at claims i }
{
    claim_at(
        &lines.stretches,
        claim_place(sweep, &lines.places, v),
        sweep.ids[v],
        sweep.core[v],
        sweep.rank[v],
    )
}

/// Puts a claim at a place.
fn put_at(claims: &mut Vec<Claim>, place: u32, claim: Claim)
    requires { place < length claims.old.items }
    ensures { claims.new.items ≡ slice_set claims.old.items place claim }
{
    claims[place as usize] = claim;
}

/// The claims that vertices are told, in their order. It takes 24 bytes for each.
pub(crate) fn claims_of(
    alloc: Global,
    sweep: &Sweep,
    lines: &ClaimLines,
) -> Result<Vec<Claim>, NoMemory>
    requires { (claims : List Claim) × (order : List ℕ) × AreCounted claims order sweep.now lines.now }
    ensures { (claims : List Claim) (order : List ℕ) → AreCounted claims order sweep.now lines.now → IfOk result (λ told. told.items ≡ claims) }
{
    let mut told = vec![in alloc; NO_CLAIM; sweep.core.len()]?;
    for v in 0..sweep.core.len() {
        let place = claim_place(sweep, &lines.places, v);
        let claim = vertex_claim(sweep, lines, v);
        put_at(&mut told, place, claim);
    }
    Ok(told)
}

/// What is wrong with a claim by the counts of its vertex, if anything is: there are too many later neighbours, or else too few supporters.
fn miscount_of(claim: &Claim, later: u32, supporting: u32) -> Option<ClaimFault>
    ensures found { IfSome result (IsMiscountOf claim.now later supporting) }
    ensures none { is_none result ≡ true → (later ≤ claim.now.number) × (claim.now.number ≤ supporting) }
{
    if claim.number < later {
        return Some(ClaimFault::ManyLater(*claim, u64::from(later)));
    }
    if supporting < claim.number {
        return Some(ClaimFault::FewSupporters(*claim, u64::from(supporting)));
    }
    None
}

/// What is wrong with the first claim whose number does not lie between the counts of its vertex, if there is one.
pub(crate) fn first_miscount(sweep: &Sweep, lines: &ClaimLines) -> Option<ClaimFault>
    requires { (claims : List Claim) × (order : List ℕ) × AreCounted claims order sweep.now lines.now }
    ensures found { (claims : List Claim) (order : List ℕ) → AreCounted claims order sweep.now lines.now
        → IfSome result (IsFirstMiscount claims order sweep.now.later.items sweep.now.supporters.items) }
    ensures agree { (claims : List Claim) (order : List ℕ) → AreCounted claims order sweep.now lines.now → is_none result ≡ true
        → (i : ℕ) → i < length claims → Agrees claims order sweep.now.later.items sweep.now.supporters.items i }
{
    match first_wrong(Wrong::Miscounted, sweep, &lines.places) {
        Some(v) => {
            let claim = vertex_claim(sweep, lines, v);
            miscount_of(&claim, sweep.later[v], sweep.supporters[v])
        }
        None => None,
    }
}

/// The first claim of whose vertex nothing is counted, if there is one.
pub(crate) fn first_uncounted(sweep: &Sweep, lines: &ClaimLines) -> Option<Claim>
    requires { (claims : List Claim) × (order : List ℕ) × AreCounted claims order sweep.now lines.now }
    ensures found { (claims : List Claim) (order : List ℕ) → AreCounted claims order sweep.now lines.now
        → IfSome result (IsFirstUncounted claims order sweep.now.later.items sweep.now.supporters.items) }
    ensures counted { (claims : List Claim) (order : List ℕ) → AreCounted claims order sweep.now lines.now → is_none result ≡ true
        → (i : ℕ) → i < length claims → HasCount sweep.now.later.items sweep.now.supporters.items (at order i) }
{
    match first_wrong(Wrong::Uncounted, sweep, &lines.places) {
        Some(v) => Some(vertex_claim(sweep, lines, v)),
        None => None,
    }
}

/// What is wrong with the claims by the counts, if anything is: a number, or else an id that no line names.
pub(crate) fn fault_by_counts(sweep: &Sweep, lines: &ClaimLines) -> Option<ClaimFault>
    requires { (claims : List Claim) × (order : List ℕ) × AreCounted claims order sweep.now lines.now }
    ensures found { (claims : List Claim) (order : List ℕ) → AreCounted claims order sweep.now lines.now
        → IfSome result (IsCountFault claims order sweep.now.later.items sweep.now.supporters.items) }
    ensures agree { (claims : List Claim) (order : List ℕ) → AreCounted claims order sweep.now lines.now → is_none result ≡ true
        → (i : ℕ) → i < length claims → Agrees claims order sweep.now.later.items sweep.now.supporters.items i }
    ensures counted { (claims : List Claim) (order : List ℕ) → AreCounted claims order sweep.now lines.now → is_none result ≡ true
        → (i : ℕ) → i < length claims → HasCount sweep.now.later.items sweep.now.supporters.items (at order i) }
{
    if let Some(fault) = first_miscount(sweep, lines) {
        return Some(fault);
    }
    match first_uncounted(sweep, lines) {
        Some(claim) => Some(ClaimFault::Unknown(claim)),
        None => None,
    }
}
