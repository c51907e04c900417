//! Parts of a block without repeats, moved together to the front of it.
ghost use Rattle.std.specs.Prelude.{◌≡◌, ◌≤◌, ◌<◌, ℕ, length, take, drop, slice_index};
ghost use Rattle.std.specs.List.{between};
ghost use Rattle.std.specs.List.Sorted.{IsNonDecreasing, IsStrictlyIncreasing};
ghost use Rattle.kc_lists.specs.Lists.{member};
ghost use Rattle.kc_flat.specs.Parts.{part, Fills};

/// Moves the different ones of the sorted numbers from the place `from` to below `to` to the places from `start` on, which is no later,
/// and tells where they end. What lies before `start`, and from `to` on, stays.
fn pack_part(block: &mut [u32], from: usize, to: usize, start: usize) -> usize
    requires ordered { from ≤ to }
    requires within { to ≤ length block.old }
    requires earlier { start ≤ from }
    requires sorted { IsNonDecreasing (between from to block.old) }
    ensures start { start ≤ result }
    ensures end { result ≤ to }
    ensures len { length block.new ≡ length block.old }
    ensures before { take start block.new ≡ take start block.old }
    ensures after { drop to block.new ≡ drop to block.old }
    ensures ascends { IsStrictlyIncreasing (between start result block.new) }
    ensures same { (w : ℕ) → member w (between start result block.new) ≡ member w (between from to block.old) }
{
    let mut end = start;
    for i in from..to {
        let number = block[i];
        if end == start || block[end - 1] < number {
            block[end] = number;
            end += 1;
        }
    }
    end
}

/// Drops the repeats in parts of sorted numbers, moves the parts together, and tells how long they are: there they end in the block.
pub(crate) fn drop_repeats(block: &mut [u32], ends: &mut [usize]) -> usize
    requires fills { Fills ends.old block.old }
    requires sorted { (v : ℕ) → v < length ends.old → IsNonDecreasing (part ends.old block.old v) }
    ensures len { result ≤ length block.new }
    ensures count { length ends.new ≡ length ends.old }
    ensures fills { Fills ends.new (take result block.new) }
    ensures ascend { (v : ℕ) → v < length ends.new → IsStrictlyIncreasing (part ends.new (take result block.new) v) }
    ensures same { (v w : ℕ) → v < length ends.new → member w (part ends.new (take result block.new) v) ≡ member w (part ends.old block.old v) }
{
    let mut from = 0;
    let mut kept = 0;
    for end in ends.iter_mut() {
        let to = *end;
        kept = pack_part(block, from, to, kept);
        *end = kept;
        from = to;
    }
    kept
}
