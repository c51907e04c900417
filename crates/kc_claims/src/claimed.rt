//! What claims tell the vertices of their ids, for a sweep over a stream.
ghost use Rattle.std.specs.Prelude.{◌≡◌, ◌≢◌, ◌≤◌, ◌<◌, ◌^◌, ℕ, IfOk, IsErrOf, List, length};
ghost use Rattle.std.specs.List.Sorted.{IsStrictlyIncreasing};
ghost use Rattle.kc_graph.specs.Peeling.{at};
ghost use Rattle.kc_graph.specs.SimpleGraph.{SimpleGraph};
ghost use Rattle.kc_text.specs.declared.limits.TheConstants.Limits.{GRAPH};
ghost use Rattle.kc_claims.specs.Certificates.{IsFirstFault};
ghost use Rattle.kc_claims.specs.Judging.{AreClaimed, AreMoved, AreSpread, IsSpread, TellPlaces};
ghost use Rattle.kc_claims.specs.Tables.{AreTabled};
ghost use Rattle.kc_claims.specs.declared.claim.Claim.{Claim};
ghost use Rattle.kc_claims.specs.declared.fault.ClaimFault.{ClaimFault};

use crate::fault::{CheckFault, ClaimFault};
use crate::placing::{Unplaced, are_own_places, by_vertices, place_each, places_of};
use crate::stretch::Stretch;
use crate::sweep::Sweep;
use crate::table::ClaimTable;
use kc_graph::NoMemory;
use kc_text::Limits;
use std::alloc::Global;

/// The places of the claims of vertices.
#[derive(Drop)]
pub(crate) enum ClaimPlaces {
    /// Each vertex is itself the place of its claim: the claims come in the order of their ids.
    AsIds,
    /// The rank of each vertex is the place of its claim, as where no claim tells a rank.
    AsRanks,
    /// The place of each vertex's claim.
    Column(Vec<u32>),
}

/// Where the claims of vertices stand, and whether they tell ranks.
#[derive(Drop)]
pub(crate) struct ClaimLines {
    pub(crate) places: ClaimPlaces,
    /// The lines of claims by their places.
    pub(crate) stretches: Vec<Stretch>,
}

/// What claims tell vertices.
#[derive(Drop)]
struct Spread {
    core: Vec<u32>,
    rank: Vec<u32>,
    lines: ClaimLines,
}

/// A sweep that has begun for what claims tell, and where they stand.
#[derive(Drop)]
pub(crate) struct Claimed {
    pub(crate) sweep: Sweep,
    pub(crate) lines: ClaimLines,
}

/// These ids, ascending, each once.
fn ascending(ids: Vec<u32>) -> Vec<u32>
    ensures { IsStrictlyIncreasing result.items }
{
    let mut ids = ids;
    ids.sort_unstable();
    ids.dedup();
    ids
}

/// The places of claims whose vertices come in this order, with these ranks. It takes 4 bytes a claim where some claim's rank is not its place.
fn claim_places(alloc: Global, order: &[u32], ranks: &[u32]) -> Result<ClaimPlaces, NoMemory>
    requires few { length order.now ≤ 2 ^ 32 }
    requires one_each { length ranks.now ≡ length order.now }
    requires vertices { (i : ℕ) → i < length order.now → at order.now i < length order.now }
    requires apart { (i j : ℕ) → i < j → j < length order.now → at order.now i ≢ at order.now j }
    ensures { IfOk result (λ places. (rank : List ℕ) → AreMoved order.now ranks.now rank → TellPlaces order.now rank places) }
{
    if are_own_places(ranks) {
        return Ok(ClaimPlaces::AsRanks);
    }
    Ok(ClaimPlaces::Column(places_of(alloc, order)?))
}

/// What claims tell vertices, where the column of their ids has these. The columns end here, one after another.
fn spread_out(alloc: Global, table: ClaimTable) -> Result<Spread, NoMemory>
    requires { (ids : List ℕ) × (claims : List Claim) × AreSpread ids claims table }
    ensures { IfOk result (λ spread. (ids : List ℕ) (claims : List Claim) → AreSpread ids claims table → IsSpread ids claims table.ids.items spread) }
{
    let ClaimTable {
        ids: order,
        numbers: core,
        ranks: rank,
        stretches,
    } = table;
    if are_own_places(&order) {
        let places = ClaimPlaces::AsIds;
        let lines = ClaimLines { places, stretches };
        return Ok(Spread { core, rank, lines });
    }
    let core = by_vertices(alloc, &order, core)?;
    let places = claim_places(alloc, &order, &rank)?;
    let rank = by_vertices(alloc, &order, rank)?;
    let lines = ClaimLines { places, stretches };
    Ok(Spread { core, rank, lines })
}

/// Begins a sweep for what claims tell vertices, where the column of their ids has these.
fn begun(alloc: Global, ids: Vec<u32>, table: ClaimTable) -> Result<Claimed, NoMemory>
    requires ascending { IsStrictlyIncreasing ids.items }
    requires few { length ids.items ≤ GRAPH.ids }
    requires spread { (claims : List Claim) × AreSpread ids.items claims table }
    ensures { IfOk result (λ claimed. (claims : List Claim) → AreSpread ids.items claims table → AreClaimed claims table.ids.items claimed) }
{
    let Spread { core, rank, lines } = spread_out(alloc, table)?;
    let sweep = Sweep::new(alloc, ids, core, rank)?;
    Ok(Claimed { sweep, lines })
}

/// The ids that claims name, ascending, each once.
pub(crate) fn ids_of(alloc: Global, table: &ClaimTable) -> Result<Vec<u32>, NoMemory>
    ensures { IfOk result (λ ids. IsStrictlyIncreasing ids.items) }
{
    Ok(ascending(Vec::from_slice(alloc, &table.ids)?))
}

/// Begins a sweep for what claims tell the vertices of these ids. They are at fault where they name one twice. It takes 8 bytes a claim for a
/// while, and then 8 for the counts. It takes 4 more where a column of places is kept.
pub(crate) fn begin_for(
    alloc: Global,
    ids: Vec<u32>,
    table: ClaimTable,
) -> Result<Claimed, CheckFault>
    requires ascending { IsStrictlyIncreasing ids.items }
    requires tabled { (claims : List Claim) × AreTabled claims table }
    ensures claimed { IfOk result (λ claimed. (claims : List Claim) → AreTabled claims table → (order : List ℕ) × AreClaimed claims order claimed) }
    ensures faulty { (claims : List Claim) (fault : ClaimFault) → AreTabled claims table → IsErrOf result (CheckFault.Faulty fault)
        → (ids : List ℕ) × ((g : SimpleGraph) → IsFirstFault ids g claims fault) }
{
    let mut table = table;
    if ids.len() > Limits::GRAPH.ids as usize {
        return Err(CheckFault::NoMemory);
    }
    match place_each(alloc, &ids, &mut table.ids) {
        Ok(()) => match begun(alloc, ids, table) {
            Ok(claimed) => Ok(claimed),
            Err(_) => Err(CheckFault::NoMemory),
        },
        Err(Unplaced::Second(place)) => {
            Err(CheckFault::Faulty(ClaimFault::Repeated(table.claim(place))))
        }
        Err(_) => Err(CheckFault::NoMemory),
    }
}

/// Begins a sweep for what claims tell the vertices of their ids. They are at fault where they name an id twice.
pub(crate) fn begin_table(alloc: Global, table: ClaimTable) -> Result<Claimed, CheckFault>
    requires { (claims : List Claim) × AreTabled claims table }
    ensures claimed { IfOk result (λ claimed. (claims : List Claim) → AreTabled claims table → (order : List ℕ) × AreClaimed claims order claimed) }
    ensures faulty { (claims : List Claim) (fault : ClaimFault) → AreTabled claims table → IsErrOf result (CheckFault.Faulty fault)
        → (ids : List ℕ) × ((g : SimpleGraph) → IsFirstFault ids g claims fault) }
{
    let ids = ids_of(alloc, &table)?;
    begin_for(alloc, ids, table)
}
