//! Counts the later neighbours of a vertex, and its supporters.
ghost use Rattle.std.specs.Prelude.{◌≡◌, ◌<◌, All, ◌||◌, ◌&&◌, ◌==◌, count_by, length, nat_le, nat_lt, slice_index};
ghost use Rattle.kc_graph.specs.Peeling.{at};
ghost use Rattle.kc_tally.specs.Keys.{has_lesser_key};
ghost use Rattle.kc_claims.specs.Certificates.{later_neighbours, supporters};

use kc_flat::FlatGraph;

/// Whether the rank of `v` is less than that of `w`, or the same and `v` itself is less.
fn ranks_before(rank: &[u64], v: u32, w: u32) -> bool
    requires first { v < length rank.now }
    requires second { w < length rank.now }
    ensures { result ≡ (nat_lt (slice_index rank.now v) (slice_index rank.now w)
        || (slice_index rank.now v == slice_index rank.now w && nat_lt v w)) }
{
    let (rank_v, rank_w) = (rank[v as usize], rank[w as usize]);
    rank_v < rank_w || (rank_v == rank_w && v < w)
}

/// Whether the key of `v` is less than that of `w`: its number, then its rank, then itself.
fn has_lesser_key(core: &[u32], rank: &[u64], v: u32, w: u32) -> bool
    requires ranked { length rank.now ≡ length core.now }
    requires first { v < length core.now }
    requires second { w < length core.now }
    ensures { result ≡ has_lesser_key core.now rank.now v w }
{
    let (core_v, core_w) = (core[v as usize], core[w as usize]);
    core_v < core_w || (core_v == core_w && ranks_before(rank, v, w))
}

/// How many of the vertices have a greater key than `v`.
fn later_among(core: &[u32], rank: &[u64], v: u32, vertices: &[u32]) -> usize
    requires ranked { length rank.now ≡ length core.now }
    requires first { v < length core.now }
    requires others { All (λ w. w < length core.now) vertices.now }
    ensures { result ≡ count_by (λ w. has_lesser_key core.now rank.now v w) vertices.now }
{
    vertices
        .iter()
        .filter(|w| has_lesser_key(core, rank, v, **w))
        .count()
}

/// How many neighbours of `v` have a greater key.
pub(crate) fn later_neighbours(graph: &FlatGraph, core: &[u32], rank: &[u64], v: u32) -> u64
    requires numbered { length core.now ≡ graph.now.size }
    requires ranked { length rank.now ≡ graph.now.size }
    requires vertex { v < graph.now.size }
    ensures { result ≡ later_neighbours graph.now core.now rank.now v }
{
    later_among(core, rank, v, graph.neighbours(v)) as u64
}

/// How many of the vertices have at least this number.
fn at_least(number: u32, vertices: &[u32], core: &[u32]) -> usize
    requires { All (λ w. w < length core.now) vertices.now }
    ensures { result ≡ count_by (λ w. nat_le number (at core.now w)) vertices.now }
{
    vertices
        .iter()
        .filter(|w| core[**w as usize] >= number)
        .count()
}

/// How many neighbours of `v` have its number or more.
pub(crate) fn supporters(graph: &FlatGraph, core: &[u32], v: u32) -> u64
    requires numbered { length core.now ≡ graph.now.size }
    requires vertex { v < graph.now.size }
    ensures { result ≡ supporters graph.now core.now v }
{
    at_least(core[v as usize], graph.neighbours(v), core) as u64
}
