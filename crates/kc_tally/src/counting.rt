//! The counts of a piece of the edges, added to those of others.
ghost use Rattle.std.specs.Prelude.{◌≡◌, ◌<◌, ◌+◌, ◌++◌, ℕ, true, List, All, IfOk, IfErr, None, Some, length, nat_le, nat_lt, ◌||◌, ◌&&◌, ◌==◌};
ghost use Rattle.std.specs.Prelude.{slice_index, slice_set, if◌then◌else◌};
ghost use Rattle.kc_graph.specs.Bulk.{is_within};
ghost use Rattle.kc_graph.specs.declared.bulk.Edge.{Edge};
ghost use Rattle.kc_tally.specs.Keys.{has_lesser_key};
ghost use Rattle.kc_tally.specs.Lists.{first_fault};
ghost use Rattle.kc_tally.specs.Tallies.{leads_to, later_count, supporter_count, capped, AreTallied};

use crate::fault::{FirstFault, first_fault};
use kc_graph::Edge;

/// One more is counted at `v`.
fn count_one(counts: &mut [u32], v: u32)
    requires { v < length counts.old }
    ensures { counts.new ≡ slice_set counts.old v (capped (slice_index counts.old v + 1)) }
{
    counts[v as usize] = counts[v as usize].saturating_add(1);
}

/// Counts the later neighbour that an edge between two vertices with the same core number gives.
fn count_by_rank(rank: &[u32], edge: Edge, later: &mut [u32])
    requires later_each { length later.old ≡ length rank.now }
    requires within { edge.v < length rank.now }
    requires lesser_first { edge.u < edge.v }
    ensures { later.new ≡ (let at = if nat_le (slice_index rank.now edge.u) (slice_index rank.now edge.v) then edge.u else edge.v in
        slice_set later.old at (capped (slice_index later.old at + 1))) }
{
    if rank[edge.u as usize] <= rank[edge.v as usize] {
        count_one(later, edge.u);
    } else {
        count_one(later, edge.v);
    }
}

/// Counts what one edge gives its ends. The core numbers decide first, so that few branches hang on numbers that are met at random.
fn count_edge(core: &[u32], rank: &[u32], edge: Edge, later: &mut [u32], supporters: &mut [u32])
    requires ranked { length rank.now ≡ length core.now }
    requires later_each { length later.old ≡ length core.now }
    requires supporters_each { length supporters.old ≡ length core.now }
    requires lesser_first { edge.u < edge.v }
    requires within { edge.v < length core.now }
    ensures later { (v : ℕ) → v < length core.now → slice_index later.new v
        ≡ capped (slice_index later.old v + (if leads_to (has_lesser_key core.now rank.now v) v edge then 1 else 0)) }
    ensures supporters { (v : ℕ) → v < length core.now → slice_index supporters.new v
        ≡ capped (slice_index supporters.old v
        + (if leads_to (λ w. nat_le (slice_index core.now v) (slice_index core.now w)) v edge then 1 else 0)) }
{
    let (core_u, core_v) = (core[edge.u as usize], core[edge.v as usize]);
    if core_u < core_v {
        count_one(later, edge.u);
        count_one(supporters, edge.u);
    } else if core_v < core_u {
        count_one(later, edge.v);
        count_one(supporters, edge.v);
    } else {
        count_by_rank(rank, edge, later);
        count_one(supporters, edge.u);
        count_one(supporters, edge.v);
    }
}

/// Counts what edges give their ends.
fn count_all(core: &[u32], rank: &[u32], edges: &[Edge], later: &mut [u32], supporters: &mut [u32])
    requires ranked { length rank.now ≡ length core.now }
    requires later_each { length later.old ≡ length core.now }
    requires supporters_each { length supporters.old ≡ length core.now }
    requires lesser_first { All (λ e. e.u < e.v) edges.now }
    requires within { All (λ e. e.v < length core.now) edges.now }
    ensures later { (v : ℕ) → v < length core.now → slice_index later.new v
        ≡ capped (slice_index later.old v + later_count core.now rank.now edges.now v) }
    ensures supporters { (v : ℕ) → v < length core.now → slice_index supporters.new v
        ≡ capped (slice_index supporters.old v + supporter_count core.now edges.now v) }
{
    for edge in edges {
        count_edge(core, rank, *edge, later, supporters);
    }
}

/// Adds to the counts of each vertex what a piece of the edges gives it: a later neighbour where it has the lesser key of an edge's two
/// ends, and a supporter where the other end has no lesser core number. `before` is the edge after which the piece goes on, such as the
/// last one of the piece before.
///
/// A piece that is not strictly ascending, or has an edge whose ends are no two vertices with the lesser one first, is refused, and the
/// counts stay as they were.
///
/// # Example
///
/// ```rust
/// use kc_graph::Edge;
/// use kc_tally::{count, verdict};
///
/// // A triangle, and the vertex 3 that hangs on it, in two pieces. The ranks are the places in the order 3, 0, 1, 2.
/// let (core, rank) = ([2, 2, 2, 1], [1, 2, 3, 0]);
/// let first = [Edge { u: 0, v: 1 }, Edge { u: 0, v: 2 }];
/// let second = [Edge { u: 1, v: 2 }, Edge { u: 2, v: 3 }];
/// let (mut later, mut supporters) = ([0; 4], [0; 4]);
/// count(&core, &rank, None, &first, &mut later, &mut supporters)?;
/// count(&core, &rank, Some(first[1]), &second, &mut later, &mut supporters)?; // now 2, 1, 0, 1 and 2, 2, 2, 1
/// let agree = verdict(&core, &later, &supporters); // true: these are the core numbers
/// ```
pub fn count(
    core: &[u32],
    rank: &[u32],
    before: Option<Edge>,
    edges: &[Edge],
    later: &mut [u32],
    supporters: &mut [u32],
) -> Result<(), FirstFault>
    requires ranked { length rank.now ≡ length core.now }
    requires later_each { length later.old ≡ length core.now }
    requires supporters_each { length supporters.old ≡ length core.now }
    ensures accepted { IfOk result (λ _. first_fault (length core.now) 0 before edges.now ≡ None) }
    ensures refused { IfErr result (λ fault. first_fault (length core.now) 0 before edges.now ≡ Some fault) }
    ensures later { IfOk result (λ _. (v : ℕ) → v < length core.now → slice_index later.new v
        ≡ capped (slice_index later.old v + later_count core.now rank.now edges.now v)) }
    ensures supporters { IfOk result (λ _. (v : ℕ) → v < length core.now → slice_index supporters.new v
        ≡ capped (slice_index supporters.old v + supporter_count core.now edges.now v)) }
    ensures later_kept { IfErr result (λ _. later.new ≡ later.old) }
    ensures supporters_kept { IfErr result (λ _. supporters.new ≡ supporters.old) }
    ensures tally { IfOk result (λ _. (earlier : List Edge) → AreTallied core.now rank.now earlier later.old supporters.old
        → AreTallied core.now rank.now (earlier ++ edges.now) later.new supporters.new) }
{
    if let Some(fault) = first_fault(core.len(), before, edges) {
        return Err(fault);
    }
    count_all(core, rank, edges, later, supporters);
    Ok(())
}

/// Adds the counts of other pieces.
pub fn add(counts: &mut [u32], others: &[u32])
    requires { length others.now ≡ length counts.old }
    ensures { (v : ℕ) → v < length counts.old → slice_index counts.new v ≡ capped (slice_index counts.old v + slice_index others.now v) }
{
    for (v, other) in others.iter().enumerate() {
        counts[v] = counts[v].saturating_add(*other);
    }
}
