//! An order of writes that keeps labels rising.
ghost use Rattle.std.specs.Prelude.{◌≡◌, ◌≢◌, ◌<◌, ◌≤◌, ◌+◌, ◌^◌, ◌↔◌, ℕ, length, take, slice_index, true};
ghost use Rattle.std.specs.List.Sorted.{IsStrictlyIncreasing};
ghost use Rattle.kc_lists.specs.Lists.{member, Distinct};
ghost use Rattle.kc_relabel.specs.Labels.{ups, schedule_of, written, places};

/// Lists the places whose label differs, each with its new label: those that grow from last to
/// first, then those that shrink from first to last.
///
/// `old`, `new` and `out` are indexed by place. The answer says how many writes stand at the front
/// of `out`; what stands behind them says nothing.
pub fn schedule(old: &[u64], new: &[u64], out: &mut [(u32, u64)]) -> usize
    requires new_length { length new.now ≡ length old.now }
    requires out_length { length out.old ≡ length old.now }
    requires length { length old.now < 2 ^ 32 }
    requires old_rises { IsStrictlyIncreasing old.now }
    requires new_rises { IsStrictlyIncreasing new.now }
    ensures count { result ≡ length (schedule_of old.now new.now) }
    ensures front { take result out.new ≡ schedule_of old.now new.now }

    // Each place that differs is named once, and no other.
    ensures once { Distinct (places (take result out.new)) }
    ensures within { (p : ℕ) → member p (places (take result out.new)) ≡ true → p < length old.now }
    ensures differing { (p : ℕ) → p < length old.now
        → (member p (places (take result out.new)) ≡ true) ↔ (slice_index old.now p ≢ slice_index new.now p) }

    // The labels rise after each single write, and in the end they are the new ones.
    ensures rises { (k : ℕ) → k ≤ result → IsStrictlyIncreasing (written old.now (take k out.new)) }
    ensures done { written old.now (take result out.new) ≡ new.now }
{
    let grown = list_growing(old, new, out);
    list_shrinking(old, new, out, grown)
}

/// Lists the places whose label grows, from last to first.
fn list_growing(old: &[u64], new: &[u64], out: &mut [(u32, u64)]) -> usize
    requires new_length { length new.now ≡ length old.now }
    requires out_length { length out.old ≡ length old.now }
    requires length { length old.now < 2 ^ 32 }
    ensures within { result ≤ length old.now }
    ensures front { take result out.new ≡ ups 0 old.now new.now }
{
    let mut count = 0;
    let mut left = old.len();
    while left > 0 {
        left -= 1;
        if old[left] < new[left] {
            out[count] = (left as u32, new[left]);
            count += 1;
        }
    }
    count
}

/// Lists the places whose label shrinks, from first to last, behind those that grow.
fn list_shrinking(old: &[u64], new: &[u64], out: &mut [(u32, u64)], grown: usize) -> usize
    requires new_length { length new.now ≡ length old.now }
    requires out_length { length out.old ≡ length old.now }
    requires length { length old.now < 2 ^ 32 }
    requires within { grown ≤ length old.now }
    requires front { take grown out.old ≡ ups 0 old.now new.now }
    ensures within { result ≤ length old.now }
    ensures front { take result out.new ≡ schedule_of old.now new.now }
{
    let mut count = grown;
    for place in 0..old.len() {
        if new[place] < old[place] {
            out[count] = (place as u32, new[place]);
            count += 1;
        }
    }
    count
}
