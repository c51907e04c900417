//! The call for a round of h-indices on a shard.
ghost use Rattle.std.specs.Prelude.{◌≡◌, ◌≢◌, ◌↔◌, None, length};
ghost use Rattle.kc_shard.specs.Shards.{IsShardRound, differences, shard_fault};
ghost use Rattle.kc_c.specs.Rounding.{no_round};

use crate::answer::{CallResult, fault_answer};
use kc_shard::{RoundError, h_index_round};
use std::alloc::Global;

/// Writes to each place of `next` the h-index of the numbers of a row's entries: the greatest k for which at least k of them are at least
/// k. `numbers` has a number for each vertex, `neighbours` the entries of all rows, and `offsets` one place more than there are rows: 0,
/// and then for each row before which entry it ends. `number` is how many places of `next` had another number before.
#[unsafe(no_mangle)]
pub extern "C" fn kcore_h_index_round(
    alloc: Global,
    offsets: &[u64],
    neighbours: &[u32],
    numbers: &[u32],
    next: &mut [u32],
) -> CallResult
    ensures accepted { result.status ≡ 0 → shard_fault (length next.old) (length numbers.now) offsets.now neighbours.now ≡ None }
    ensures refused { result.status ≢ 0 → result ≡ no_round (shard_fault (length next.old) (length numbers.now) offsets.now neighbours.now) }
    ensures round { result.status ≡ 0 → IsShardRound offsets.now neighbours.now numbers.now next.new }
    ensures changed { result.status ≡ 0 → result.number ≡ differences next.old next.new (length next.old) }
    ensures settled { result.status ≡ 0 → (result.number ≡ 0) ↔ (next.new ≡ next.old) }
    ensures kept { result.status ≢ 0 → next.new ≡ next.old }
{
    match h_index_round(alloc, offsets, neighbours, numbers, next) {
        Ok(number) => CallResult { status: 0, number },
        Err(RoundError::Shard(fault)) => fault_answer(fault),
        Err(RoundError::NoMemory) => CallResult {
            status: 5,
            number: 0,
        },
    }
}
