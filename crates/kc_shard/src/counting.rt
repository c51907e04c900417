//! The h-index of numbers, by counting them.
//!
//! Where a bound of the h-index is known, each number above it is counted as the bound, so the counts need a place for each number up to
//! the bound alone. From the bound down the counts are added up until as many numbers are reached as the number where the search stands.
//! Most often the bound itself is the h-index: that is seen first, from as many numbers as reach it, and without counts.
ghost use Rattle.std.specs.Prelude.{◌≡◌, ◌↔◌, ◌≤◌, ◌<◌, ◌^◌, ℕ, All, IsTrue, length, map, min, count_by, nat_eq, slice_index};
ghost use Rattle.kc_shard.specs.HIndex.{h_index, how_many_reach};

/// How many vertices are looked at before it is asked whether they are enough.
const BLOCK: usize = 32;

/// How many of the vertices have a number of at least `limit`.
fn how_many(limit: u32, vertices: &[u32], numbers: &[u32]) -> u32
    requires within { All (λ w. w < length numbers.now) vertices.now }
    requires few { length vertices.now < 2 ^ 32 }
    ensures { result ≡ how_many_reach limit (map (slice_index numbers.now) vertices.now) }
{
    let mut reached = 0;
    for w in vertices {
        if numbers[*w as usize] >= limit {
            reached += 1;
        }
    }
    reached
}

/// Whether `limit` of the vertices have a number of at least `limit`. It looks at no more of them than it takes to see that, but for the
/// rest of a block.
fn is_reached(limit: u32, vertices: &[u32], numbers: &[u32]) -> bool
    requires within { All (λ w. w < length numbers.now) vertices.now }
    requires few { length vertices.now < 2 ^ 32 }
    ensures { IsTrue result ↔ (limit ≤ how_many_reach limit (map (slice_index numbers.now) vertices.now)) }
{
    let mut rest = vertices;
    let mut reached = 0;
    while reached < limit && !rest.is_empty() {
        let (block, others) = rest.split_at(rest.len().min(BLOCK));
        reached += how_many(limit, block, numbers);
        rest = others;
    }
    limit <= reached
}

/// Sets the counts of the numbers up to `limit` to none.
fn clear(counts: &mut [u32], limit: u32)
    requires { limit < length counts.old }
    ensures { (k : ℕ) → k ≤ limit → slice_index counts.new k ≡ 0 }
{
    for k in 0..limit as usize + 1 {
        counts[k] = 0;
    }
}

/// Counts the numbers of the vertices, each above `limit` as `limit`.
fn tally(counts: &mut [u32], limit: u32, vertices: &[u32], numbers: &[u32])
    requires room { limit < length counts.old }
    requires clear { (k : ℕ) → k ≤ limit → slice_index counts.old k ≡ 0 }
    requires within { All (λ w. w < length numbers.now) vertices.now }
    requires few { length vertices.now < 2 ^ 32 }
    ensures { (k : ℕ) → k ≤ limit → slice_index counts.new k ≡ count_by (λ w. nat_eq (min (slice_index numbers.now w) limit) k) vertices.now }
{
    for w in vertices {
        let number = numbers[*w as usize].min(limit);
        counts[number as usize] += 1;
    }
}

/// The greatest number up to `limit` that as many numbers reach.
fn greatest_reached(counts: &[u32], limit: u32, vertices: &[u32], numbers: &[u32]) -> u32
    requires room { limit < length counts.now }
    requires counts { (k : ℕ) → k ≤ limit → slice_index counts.now k ≡ count_by (λ w. nat_eq (min (slice_index numbers.now w) limit) k) vertices.now }
    requires few { length vertices.now < 2 ^ 32 }
    requires most { h_index (map (slice_index numbers.now) vertices.now) ≤ limit }
    ensures { result ≡ h_index (map (slice_index numbers.now) vertices.now) }
{
    let _vertices = vertices.len();
    let mut number = limit;
    let mut reached = counts[limit as usize];
    while reached < number {
        number -= 1;
        reached += counts[number as usize];
    }
    number
}

/// The h-index of the numbers of the vertices, where it is at most `limit`. `counts` has a place for each number up to `limit`, and what
/// it holds before and after does not matter.
pub fn h_index_of(limit: u32, vertices: &[u32], numbers: &[u32], counts: &mut [u32]) -> u32
    requires room { limit < length counts.old }
    requires within { All (λ w. w < length numbers.now) vertices.now }
    requires few { length vertices.now < 2 ^ 32 }
    requires most { h_index (map (slice_index numbers.now) vertices.now) ≤ limit }
    ensures { result ≡ h_index (map (slice_index numbers.now) vertices.now) }
{
    if is_reached(limit, vertices, numbers) {
        return limit;
    }
    clear(counts, limit);
    tally(counts, limit, vertices, numbers);
    greatest_reached(counts, limit, vertices, numbers)
}
