//! Finds the updates of a batch that decide: a batch may name an edge again, and then the last update of it decides. They are found by
//! a sort of numbers, which costs less than a set of the edges would.
ghost use Rattle.std.specs.Prelude.{◌≡◌, ◌<◌, ◌+◌, ◌%◌, ◌^◌, All, IfOk, length, map};
ghost use Rattle.kc_text.specs.Deciding.{AreOverruled, AreRanks, MarksFollowed, last_batch, rank};
ghost use Rattle.kc_text.specs.Inputs.{parts_of_batch};
ghost use Rattle.kc_text.specs.LastUpdates.{last_of_edges};
ghost use Rattle.kc_text.specs.declared.overruling.TheConstants.{NUMBERS};

use crate::NoMemory;
use crate::batch::Batch;
use kc_graph::Update;
use std::alloc::Global;

/// How many numbers there are for a vertex, and for the place of an update in its batch.
const NUMBERS: u128 = 4_294_967_296;

/// The edge of an update and its place in the batch, as one number.
fn rank(update: Update, place: usize) -> u128
    requires { place < NUMBERS }
    ensures rank { result ≡ rank update place }
    ensures ends { update.v < NUMBERS }
{
    let edge = u128::from(update.u) * NUMBERS + u128::from(update.v);
    edge * NUMBERS + place as u128
}

/// The ranks of the updates, in their order.
fn ranks_of(alloc: Global, updates: &[Update]) -> Result<Vec<u128>, NoMemory>
    requires { length updates.now < NUMBERS }
    ensures { IfOk result (λ ranks. AreRanks updates.now ranks.items) }
{
    let mut ranks = Vec::with_capacity(alloc, updates.len())?;
    for (place, update) in updates.iter().enumerate() {
        ranks.push(rank(*update, place))?;
    }
    Ok(ranks)
}

/// Marks the places of the ranks that one of the same edge follows.
fn mark_followed(alloc: Global, ranks: &[u128]) -> Result<Vec<bool>, NoMemory>
    requires { All (λ rank. rank % NUMBERS < length ranks.now) ranks.now }
    ensures count { IfOk result (λ marks. length marks.items ≡ length ranks.now) }
    ensures marks { IfOk result (λ marks. MarksFollowed ranks.now marks.items) }
{
    let mut marks = vec![in alloc; false; ranks.len()]?;
    for k in 1..ranks.len() {
        let (rank, next) = (ranks[k - 1], ranks[k]);
        if rank < next && rank / NUMBERS == next / NUMBERS {
            marks[(rank % NUMBERS) as usize] = true;
        }
    }
    Ok(marks)
}

/// For each update, whether a later one of the same edge overrules it.
fn overruled(alloc: Global, updates: &[Update]) -> Result<Vec<bool>, NoMemory>
    requires { length updates.now < NUMBERS }
    ensures { IfOk result (λ marks. AreOverruled updates.now marks.items) }
{
    let mut ranks = ranks_of(alloc, updates)?;
    ranks.sort_unstable();
    mark_followed(alloc, &ranks)
}

/// The updates that are not marked.
fn unmarked(alloc: Global, updates: &[Update], marks: &[bool]) -> Result<Vec<Update>, NoMemory>
    requires { AreOverruled updates.now marks.now }
    ensures { IfOk result (λ left. left.items ≡ last_of_edges updates.now) }
{
    let mut left = Vec::with_capacity(alloc, updates.len())?;
    for (i, update) in updates.iter().enumerate() {
        if !marks[i] {
            left.push(*update)?;
        }
    }
    Ok(left)
}

/// The updates of a batch that decide: of each edge that it names the last one, in their order. It sorts a number for each update, and
/// takes memory for a few more. `NoMemory` comes only where there is none.
pub fn decide(alloc: Global, updates: &[Update]) -> Result<Batch, NoMemory>
    requires { length updates.now < 2 ^ 32 }
    ensures deciding { IfOk result (λ batch. batch.updates.items ≡ last_of_edges updates.now) }
    ensures overruled { IfOk result (λ batch. length batch.updates.items + batch.overruled ≡ length updates.now) }
{
    let marks = overruled(alloc, updates)?;
    let left = unmarked(alloc, updates, &marks)?;
    let overruled = (updates.len() - left.len()) as u32;
    Ok(Batch {
        updates: left,
        overruled,
    })
}

/// The updates of each batch that decide, and how many are overruled.
pub(crate) fn decide_batches(alloc: Global, batches: &[Vec<Update>]) -> Result<Vec<Batch>, NoMemory>
    requires { All (λ batch. length batch.items < 2 ^ 32) batches.now }
    ensures { IfOk result (λ decided. map parts_of_batch decided.items ≡ map (λ batch. last_batch batch.items) batches.now) }
{
    let mut decided = Vec::with_capacity(alloc, batches.len())?;
    for batch in batches {
        decided.push(decide(alloc, batch)?)?;
    }
    Ok(decided)
}
