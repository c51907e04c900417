//! Claims that stand on lines which follow one another, and that all tell a rank or do not, as one stretch.
ghost use Rattle.std.specs.Prelude.{◌≡◌, ◌≤◌, ◌<◌, ◌-◌, ◌++◌, ◌∷◌, ◌↔◌, ℕ, [], IsTrue, List, OnOk, length};
ghost use Rattle.kc_claims.specs.Certificates.{claim_at, rank_in};
ghost use Rattle.kc_claims.specs.Stretches.{AreStretched, IsStretchOf, stretch_at};
ghost use Rattle.kc_claims.specs.Stretching.{IsBegunBy, IsOneWith, told_rank};
ghost use Rattle.kc_claims.specs.declared.claim.Claim.{Claim};

use crate::claim::Claim;
use kc_graph::NoMemory;

/// Claims from a place on, whose lines follow one another. All of them tell a rank, or none does.
#[derive(Clone, Copy)]
pub(crate) struct Stretch {
    /// The place of the first of them among all claims.
    pub(crate) place: u32,
    /// The line of the first of them.
    pub(crate) line: u32,
    pub(crate) ranked: bool,
}

/// Whether the claim that would begin the next stretch stands in the last one too.
fn is_one_with_last(stretches: &[Stretch], next: Stretch) -> bool
    ensures { IsTrue result ↔ ((0 < length stretches.now) × IsOneWith (stretch_at stretches.now (length stretches.now - 1)) next) }
{
    if stretches.is_empty() {
        return false;
    }
    let last = stretches[stretches.len() - 1];
    last.ranked == next.ranked
        && u64::from(last.line) + u64::from(next.place)
            == u64::from(next.line) + u64::from(last.place)
}

/// Puts a claim behind others: in the last stretch, or else at the begin of the next one.
pub(crate) fn put_claim(stretches: &mut Vec<Stretch>, next: Stretch) -> Result<(), NoMemory>
    ensures { OnOk result ((claims : List Claim) (claim : Claim) → AreStretched claims stretches.old.items → IsBegunBy claims claim next
        → AreStretched (claims ++ claim ∷ []) stretches.new.items) }
{
    if is_one_with_last(stretches, next) {
        return Ok(());
    }
    stretches.push(next)?;
    Ok(())
}

/// The stretch in which the claim at a place stands: the last that begins there or before it.
fn stretch_of(stretches: &[Stretch], place: u32) -> Stretch
    requires { (claims : List Claim) × AreStretched claims stretches.now × (place < length claims) }
    ensures { (k : ℕ) × IsStretchOf stretches.now place k × (result ≡ stretch_at stretches.now k) }
{
    let begun = stretches.partition_point(|stretch| stretch.place <= place);
    stretches[begun - 1]
}

/// A rank where it is told.
fn told_rank(ranked: bool, rank: u32) -> Option<u32>
    ensures { result ≡ told_rank ranked rank }
{
    if ranked { Some(rank) } else { None }
}

/// The claim at a place, by the id, the number and the rank that it tells. Where it tells no rank, its place stands for that.
pub(crate) fn claim_at(stretches: &[Stretch], place: u32, id: u32, number: u32, rank: u32) -> Claim
    requires { (claims : List Claim) × AreStretched claims stretches.now × (place < length claims) }
    ensures { (claims : List Claim) → AreStretched claims stretches.now → place < length claims → id ≡ (claim_at claims place).id
        → number ≡ (claim_at claims place).number → rank ≡ rank_in place (claim_at claims place) → result ≡ claim_at claims place }
{
    let stretch = stretch_of(stretches, place);
    Claim {
        line: u64::from(stretch.line) + u64::from(place - stretch.place),
        id,
        number,
        rank: told_rank(stretch.ranked, rank),
    }
}
