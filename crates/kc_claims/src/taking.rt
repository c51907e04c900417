//! Takes claims for the vertices that they name.
ghost use Rattle.std.specs.Prelude.{◌≡◌, ◌<◌, ◌^◌, ℕ, false, true, IfOk, IfSome, IsErrOf, OnOk, is_none, length};
ghost use Rattle.std.specs.List.Sorted.{IsStrictlyIncreasing};
ghost use Rattle.kc_lists.specs.Lists.{member};
ghost use Rattle.kc_graph.specs.Peeling.{at};
ghost use Rattle.kc_graph.specs.SimpleGraph.{SimpleGraph};
ghost use Rattle.kc_claims.specs.Certificates.{IsFirstFault, TellEach, rank_in};
ghost use Rattle.kc_claims.specs.Taking.{HasTaken, IsTakenWith, IsUnmarkedFirst, is_marked};
ghost use Rattle.kc_claims.specs.declared.fault.ClaimFault.{ClaimFault};

use crate::claim::Claim;
use crate::fault::{CheckFault, ClaimFault};
use kc_graph::NoMemory;
use std::alloc::Global;

/// What claims tell the vertices that they name.
#[derive(Drop)]
pub(crate) struct Taken {
    /// The vertices in the order of their claims.
    pub(crate) order: Vec<u32>,
    /// The number of each vertex.
    pub(crate) core: Vec<u32>,
    /// The rank of each vertex.
    pub(crate) rank: Vec<u64>,
    /// Whether a claim names the vertex.
    pub(crate) named: Vec<bool>,
}

/// The vertex that stands for an id, if it is one of these.
pub(crate) fn vertex_of(ids: &[u32], id: u32) -> Option<usize>
    requires { IsStrictlyIncreasing ids.now }
    ensures found { IfSome result (λ v. (v < length ids.now) × (at ids.now v ≡ id)) }
    ensures none { is_none result ≡ true → member id ids.now ≡ false }
{
    match ids.binary_search(&id) {
        Ok(v) => Some(v),
        Err(_) => None,
    }
}

/// The rank that a claim tells, or else its place.
fn rank_in(place: usize, claim: &Claim) -> u64
    ensures { result ≡ rank_in place claim.now }
{
    match claim.rank {
        Some(rank) => u64::from(rank),
        None => place as u64,
    }
}

impl Taken {
    /// No claim is taken, and there is room for one of each id.
    fn new(alloc: Global, ids: usize) -> Result<Taken, NoMemory>
        ensures order { IfOk result (λ taken. length taken.order.items ≡ 0) }
        ensures core { IfOk result (λ taken. length taken.core.items ≡ ids) }
        ensures rank { IfOk result (λ taken. length taken.rank.items ≡ ids) }
        ensures named { IfOk result (λ taken. length taken.named.items ≡ ids) }
        ensures none { IfOk result (λ taken. (v : ℕ) → is_marked taken.named.items v ≡ false) }
    {
        let order = Vec::with_capacity(alloc, ids)?;
        let core = vec![in alloc; 0u32; ids]?;
        let rank = vec![in alloc; 0u64; ids]?;
        let named = vec![in alloc; false; ids]?;
        Ok(Taken {
            order,
            core,
            rank,
            named,
        })
    }

    /// Takes a claim for a vertex that none has named yet.
    fn take(&mut self, v: usize, number: u32, rank: u64) -> Result<(), NoMemory>
        requires vertex { v < length self.old.named.items }
        requires numbers { length self.old.core.items ≡ length self.old.named.items }
        requires ranks { length self.old.rank.items ≡ length self.old.named.items }
        requires fits { v < 2 ^ 32 }
        ensures { OnOk result (IsTakenWith self.old self.new v number rank) }
    {
        self.order.push(v as u32)?;
        self.core[v] = number;
        self.rank[v] = rank;
        self.named[v] = true;
        Ok(())
    }
}

/// Takes all claims. One that is of no id, or of an id that an earlier one names, is a fault, and the first of these is told.
fn take_all(
    alloc: Global,
    vertices: u32,
    ids: &[u32],
    claims: &[Claim],
) -> Result<Taken, CheckFault>
    requires ascending { IsStrictlyIncreasing ids.now }
    requires named { length ids.now ≡ vertices }
    ensures taken { IfOk result (HasTaken ids.now claims.now (length claims.now)) }
    ensures faulty { (g : SimpleGraph) (fault : ClaimFault) → IsErrOf result (CheckFault.Faulty fault) → IsFirstFault ids.now g claims.now fault }
{
    let mut taken = Taken::new(alloc, vertices as usize)?;
    for (place, claim) in claims.iter().enumerate() {
        let Some(v) = vertex_of(ids, claim.id) else {
            return Err(CheckFault::Faulty(ClaimFault::Unknown(*claim)));
        };
        if taken.named[v] {
            return Err(CheckFault::Faulty(ClaimFault::Repeated(*claim)));
        }
        taken.take(v, claim.number, rank_in(place, claim))?;
    }
    Ok(taken)
}

/// The least id whose vertex is not marked.
pub(crate) fn first_unmarked(ids: &[u32], named: &[bool]) -> Option<u32>
    requires { length named.now ≡ length ids.now }
    ensures found { IfSome result (λ id. IsUnmarkedFirst ids.now named.now id) }
    ensures none { is_none result ≡ true → (v : ℕ) → v < length ids.now → is_marked named.now v ≡ true }
{
    for (v, id) in ids.iter().enumerate() {
        if !named[v] {
            return Some(*id);
        }
    }
    None
}

/// What claims tell the vertices, where they name each id just once. Else the first that does not is told, or the least id that none names.
pub(crate) fn told_by(
    alloc: Global,
    vertices: u32,
    ids: &[u32],
    claims: &[Claim],
) -> Result<Taken, CheckFault>
    requires ascending { IsStrictlyIncreasing ids.now }
    requires named { length ids.now ≡ vertices }
    ensures told { IfOk result (λ taken. TellEach ids.now claims.now taken.order.items taken.core.items taken.rank.items) }
    ensures faulty { (g : SimpleGraph) (fault : ClaimFault) → IsErrOf result (CheckFault.Faulty fault) → IsFirstFault ids.now g claims.now fault }
{
    let taken = take_all(alloc, vertices, ids, claims)?;
    match first_unmarked(ids, &taken.named) {
        None => Ok(taken),
        Some(id) => Err(CheckFault::Faulty(ClaimFault::Missing(id))),
    }
}
