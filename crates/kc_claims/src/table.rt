//! The claims of a certificate in columns, so that they take little room.
ghost use Rattle.std.specs.Prelude.{◌≡◌, ◌<◌, ◌++◌, ◌∷◌, [], IfOk, List, OnOk, length};
ghost use Rattle.kc_graph.specs.Peeling.{at};
ghost use Rattle.kc_claims.specs.Certificates.{claim_at};
ghost use Rattle.kc_claims.specs.Tables.{AreColumns, AreTabled, short_rank};
ghost use Rattle.kc_claims.specs.declared.claim.Claim.{Claim};

use crate::claim::Claim;
use crate::stretch::{Stretch, claim_at, put_claim};
use kc_graph::NoMemory;
use std::alloc::Global;

/// The claims of a certificate in their order, with a column for each thing that they tell. A claim takes 12 bytes.
///
/// So does each stretch of claims whose lines follow one another, and that all tell a rank or do not. A certificate without comments whose lines
/// all have as many fields is one.
#[derive(Drop)]
pub struct ClaimTable {
    pub(crate) ids: Vec<u32>,
    pub(crate) numbers: Vec<u32>,
    /// The rank that each claim tells, or else its place.
    pub(crate) ranks: Vec<u32>,
    /// On which lines the claims stand, and which of them tell a rank.
    pub(crate) stretches: Vec<Stretch>,
}

/// The rank that a claim tells, or else its place.
fn short_rank(place: u32, rank: Option<u32>) -> u32
    ensures { result ≡ short_rank place rank }
{
    match rank {
        Some(rank) => rank,
        None => place,
    }
}

impl ClaimTable {
    /// No claim.
    pub(crate) fn new(alloc: Global) -> ClaimTable
        ensures { AreTabled [] result }
    {
        ClaimTable {
            ids: Vec::new(alloc),
            numbers: Vec::new(alloc),
            ranks: Vec::new(alloc),
            stretches: Vec::new(alloc),
        }
    }

    /// Puts a claim behind others. There is no memory for more than 2^32 claims or lines.
    pub(crate) fn put(&mut self, claim: Claim) -> Result<(), NoMemory>
        ensures { OnOk result ((claims : List Claim) → AreTabled claims self.old → AreTabled (claims ++ claim ∷ []) self.new) }
    {
        let place = self.ids.len();
        if place > u32::MAX as usize || claim.line > u64::from(u32::MAX) {
            return Err(NoMemory);
        }
        self.ids.push(claim.id)?;
        self.numbers.push(claim.number)?;
        self.ranks.push(short_rank(place as u32, claim.rank))?;
        let next = Stretch {
            place: place as u32,
            line: claim.line as u32,
            ranked: claim.rank.is_some(),
        };
        put_claim(&mut self.stretches, next)?;
        Ok(())
    }

    /// The claim at a place.
    pub(crate) fn claim(&self, place: usize) -> Claim
        requires ids { place < length self.now.ids.items }
        requires columns { (claims : List Claim) × AreColumns claims self.now.numbers.items self.now.ranks.items self.now.stretches.items
            × (length claims ≡ length self.now.ids.items) }
        ensures { (claims : List Claim) → AreColumns claims self.now.numbers.items self.now.ranks.items self.now.stretches.items
            → place < length claims → at self.now.ids.items place ≡ (claim_at claims place).id → result ≡ claim_at claims place }
    {
        claim_at(
            &self.stretches,
            place as u32,
            self.ids[place],
            self.numbers[place],
            self.ranks[place],
        )
    }

    /// The claims, in their order. It takes 24 bytes for each.
    ///
    /// # Example
    ///
    /// ```rust
    /// use kc_claims::claims_from;
    /// use kc_io::mem_source::MemSource;
    ///
    /// let text = Vec::from_slice(alloc, b"# an id and its core number\n7 2\n8 2\n")?;
    /// let mut certificate = MemSource::new(text, 4, Vec::new(alloc)); // four bytes at a time
    /// let table = claims_from(alloc, &mut certificate)?;
    /// let claims = table.claims(alloc)?;
    /// let first = claims.first(); // Some(Claim { line: 2, id: 7, number: 2, rank: None })
    /// ```
    pub fn claims(&self, alloc: Global) -> Result<Vec<Claim>, NoMemory>
        requires { (claims : List Claim) × AreTabled claims self.now }
        ensures { (claims : List Claim) → AreTabled claims self.now → IfOk result (λ told. told.items ≡ claims) }
    {
        let mut told = Vec::with_capacity(alloc, self.ids.len())?;
        for place in 0..self.ids.len() {
            told.push(self.claim(place))?;
        }
        Ok(told)
    }
}
