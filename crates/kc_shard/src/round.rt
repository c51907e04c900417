//! A round of h-indices on a shard.
ghost use Rattle.std.specs.Prelude.{◌≡◌, ◌↔◌, ◌≤◌, ◌<◌, ◌+◌, ◌^◌, ◌==◌, not, ℕ, None, IfOk, IfErr, length, slice_index, slice_set};
ghost use Rattle.kc_shard.specs.Shards.{IsShard, IsShardRound, differences, error_by, shard_fault, shard_row};

use crate::counting::h_index_of;
use crate::fault::{ShardFault, first_fault};
use std::alloc::Global;

/// Why there was no round.
#[derive(Clone, Copy, Debug, PartialEq, Eq)]
pub enum RoundError {
    /// This is wrong with the shard.
    Shard(ShardFault),
    /// There is no memory for a count for each entry of the longest row, and one more.
    NoMemory,
}

/// The entries of one row.
fn row_of<'a>(offsets: &[u64], neighbours: &'a [u32], row: usize) -> &'a [u32]
    requires within { row + 1 < length offsets.now }
    requires ascending { slice_index offsets.now row ≤ slice_index offsets.now (row + 1) }
    requires ends { slice_index offsets.now (row + 1) ≤ length neighbours.now }
    ensures { result.now ≡ shard_row offsets.now neighbours.now row }
{
    &neighbours[offsets[row] as usize..offsets[row + 1] as usize]
}

/// How many entries the longest row has.
fn longest_row(rows: usize, offsets: &[u64]) -> u32
    requires count { length offsets.now ≡ rows + 1 }
    requires ascending { (row : ℕ) → row < rows → slice_index offsets.now row ≤ slice_index offsets.now (row + 1) }
    requires short { (row : ℕ) → row < rows → slice_index offsets.now (row + 1) < slice_index offsets.now row + 2 ^ 32 }
    ensures { (row : ℕ) → row < rows → slice_index offsets.now (row + 1) ≤ slice_index offsets.now row + result }
{
    let mut most = 0;
    for row in 0..rows {
        most = most.max((offsets[row + 1] - offsets[row]) as u32);
    }
    most
}

/// Puts a number to its place, and says whether another one stood there.
fn put(next: &mut [u32], place: usize, number: u32) -> bool
    requires { place < length next.old }
    ensures next { next.new ≡ slice_set next.old place number }
    ensures changed { result ≡ not (slice_index next.old place == number) }
{
    let changed = next[place] != number;
    next[place] = number;
    changed
}

/// Gives each row the h-index of its entries' numbers, and says how many rows had another number before.
fn fill(
    offsets: &[u64],
    neighbours: &[u32],
    numbers: &[u32],
    counts: &mut [u32],
    next: &mut [u32],
) -> usize
    requires shard { IsShard (length next.old) (length numbers.now) offsets.now neighbours.now }
    requires room { (row : ℕ) → row < length next.old
        → slice_index offsets.now (row + 1) < slice_index offsets.now row + length counts.old }
    ensures round { IsShardRound offsets.now neighbours.now numbers.now next.new }
    ensures changed { result ≡ differences next.old next.new (length next.old) }
{
    let mut changed = 0;
    for row in 0..next.len() {
        let entries = row_of(offsets, neighbours, row);
        let number = h_index_of(entries.len() as u32, entries, numbers, counts);
        if put(next, row, number) {
            changed += 1;
        }
    }
    changed
}

/// One round of h-indices for the rows of a shard. `numbers` has the present number of each vertex of the whole graph, indexed by the
/// vertex. Each place of `next` is for the row that stands there, and gets the h-index of the numbers of its entries; what it held
/// before matters only to the answer, which is how many places of `next` changed. So a caller that leaves there what the round before
/// wrote is told how many of its vertices changed.
///
/// Where something is wrong with the shard, or where there is no memory for the counts, nothing is written. The time is linear in the rows
/// and the entries; no clause speaks of it.
///
/// # Example
///
/// ```rust
/// use kc_shard::h_index_round;
///
/// // A triangle, and the vertex 3 that hangs on it: the neighbours of each vertex, row after row.
/// let (offsets, neighbours) = ([0, 2, 4, 7, 8], [1, 2, 0, 2, 0, 1, 3, 2]);
/// let degrees = [2, 2, 3, 1];
/// let mut next = degrees;
/// let changed = h_index_round(alloc, &offsets, &neighbours, &degrees, &mut next)?; // 1: next is 2, 2, 2, 1
/// let numbers = next;
/// let changed = h_index_round(alloc, &offsets, &neighbours, &numbers, &mut next)?; // 0: the core numbers
/// ```
pub fn h_index_round(
    alloc: Global,
    offsets: &[u64],
    neighbours: &[u32],
    numbers: &[u32],
    next: &mut [u32],
) -> Result<usize, RoundError>
    ensures accepted { IfOk result (λ _. shard_fault (length next.old) (length numbers.now) offsets.now neighbours.now ≡ None) }
    ensures refused { IfErr result (λ error. error
        ≡ error_by (shard_fault (length next.old) (length numbers.now) offsets.now neighbours.now)) }
    ensures round { IfOk result (λ _. IsShardRound offsets.now neighbours.now numbers.now next.new) }
    ensures changed { IfOk result (λ changed. changed ≡ differences next.old next.new (length next.old)) }
    ensures settled { IfOk result (λ changed. (changed ≡ 0) ↔ (next.new ≡ next.old)) }
    ensures kept { IfErr result (λ _. next.new ≡ next.old) }
{
    let rows = next.len();
    if let Some(fault) = first_fault(rows, numbers.len(), offsets, neighbours) {
        return Err(RoundError::Shard(fault));
    }
    let room = longest_row(rows, offsets) as usize + 1;
    match vec![in alloc; 0u32; room] {
        Ok(mut counts) => Ok(fill(offsets, neighbours, numbers, &mut counts, next)),
        Err(_) => Err(RoundError::NoMemory),
    }
}
