//! Parts of a block put in ascending order, without repeats.
ghost use Rattle.std.specs.Prelude.{◌≡◌, ◌≤◌, ◌<◌, ◌+◌, ◌↔◌, ℕ, IsTrue, length, take, drop, slice_index, IfOk};
ghost use Rattle.std.specs.List.{between};
ghost use Rattle.std.specs.List.Sorted.{IsNonDecreasing, IsStrictlyIncreasing};
ghost use Rattle.kc_lists.specs.Lists.{member};
ghost use Rattle.kc_graph.specs.Rows.{row};
ghost use Rattle.kc_graph.specs.Blocks.{LieFrom, entries_of_each, first_of};

use crate::NoMemory;
use crate::row::Row;
use std::alloc::Global;

/// Whether each number is less than the next.
fn ascends(part: &[u32]) -> bool
    ensures { IsTrue result ↔ IsStrictlyIncreasing part.now }
{
    for i in 1..part.len() {
        if part[i] <= part[i - 1] {
            return false;
        }
    }
    true
}

/// Moves the different ones of sorted numbers to the front, in order, and tells how many they are.
fn drop_repeats(part: &mut [u32]) -> usize
    requires { IsNonDecreasing part.old }
    ensures within { result ≤ length part.new }
    ensures len { length part.new ≡ length part.old }
    ensures ascends { IsStrictlyIncreasing (take result part.new) }
    ensures same { (w : ℕ) → member w (take result part.new) ≡ member w part.old }
{
    let mut kept = 0;
    for i in 0..part.len() {
        let number = part[i];
        if kept == 0 || part[kept - 1] < number {
            part[kept] = number;
            kept += 1;
        }
    }
    kept
}

/// Puts the different ones of the numbers at the front, in ascending order, and tells how many they are. Numbers that ascend are only
/// read.
fn put_in_order(part: &mut [u32]) -> usize
    ensures within { result ≤ length part.new }
    ensures len { length part.new ≡ length part.old }
    ensures ascends { IsStrictlyIncreasing (take result part.new) }
    ensures same { (w : ℕ) → member w (take result part.new) ≡ member w part.old }
{
    if ascends(part) {
        return part.len();
    }
    part.sort_unstable();
    drop_repeats(part)
}

/// Rows with the numbers of the parts of a block, in ascending order and each number once. The parts lie one after the other, and `ends`
/// tells where each of them ends.
pub(crate) fn rows_in(
    alloc: Global,
    block: &mut [u32],
    ends: &[usize],
) -> Result<Vec<Row>, NoMemory>
    requires ordered { (v : ℕ) → v < length ends.now → first_of ends.now v ≤ slice_index ends.now v }
    requires within { (v : ℕ) → v < length ends.now → slice_index ends.now v ≤ length block.old }
    ensures len { length block.new ≡ length block.old }
    ensures count { IfOk result (λ rows. length rows.items ≡ length ends.now) }
    ensures lie { IfOk result (λ rows. LieFrom 0 block.new rows.items) }
    ensures ascend { IfOk result (λ rows. (v : ℕ) → IsStrictlyIncreasing (row (entries_of_each block.new rows.items) v)) }
    ensures same { IfOk result (λ rows. (v w : ℕ) → v < length ends.now
        → member w (row (entries_of_each block.new rows.items) v) ≡ member w (between (first_of ends.now v) (slice_index ends.now v) block.old)) }
{
    let mut rows = Vec::with_capacity(alloc, ends.len())?;
    let mut from = 0;
    for end in ends {
        let part = &mut block[from..*end];
        let kept = put_in_order(part);
        rows.push(Row::Part {
            from,
            to: from + kept,
        })?;
        from = *end;
    }
    Ok(rows)
}
