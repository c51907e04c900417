//! Core numbers, their certificates and k-cores, and core numbers that are kept while edges change, for callers in C.
//!
//! A graph is given by its number of vertices, which are the numbers below it, and a list of edges: loops are dropped, and an edge that
//! is listed again, in either direction, counts once (`kc_graph/specs/Bulk.antt`). `kcore_tally` alone takes a piece of the edges, in which
//! each stands once, and `kcore_h_index_round` takes rows of neighbours. The functions whose names end with `_csr` take a whole graph by rows,
//! of which each entry is an edge. Each function calls one of `kc_graph`, `kc_cert`, `kc_tally`,
//! `kc_shard` or `kc_keeper` and promises what that one does. But for those of `keeper.rt` they have no `requires`, since nothing checks a
//! caller in C: each argument is tested, and the `status` of the answer says what was wrong. Where it is not 0 nothing was written. Those
//! of `keeper.rt` have one premise, on the place that the caller owns.
//!
//! | Status | Meaning | `number` |
//! |---|---|---|
//! | 0 | done | what the function says, else 0 |
//! | 1 | `core` has not one place for each vertex | 0 |
//! | 2 | `order` has not one place for each vertex | 0 |
//! | 3 | `members` has not one place for each vertex | 0 |
//! | 4 | an end of an edge or of an update, or an entry of a row, is no vertex | where the first such stands |
//! | 5 | there is no memory | of `kcore_keeper_apply` how many updates were made before, else 0 |
//! | 6 | the order does not certify the numbers | 0 |
//! | 7 | `rank` has not one place for each vertex | 0 |
//! | 8 | `counts` has not two places for each vertex | 0 |
//! | 10 | both ends of an edge of a piece are the same | where the first edge of the piece stands that is wrong |
//! | 11 | its greater end stands first | the same |
//! | 12 | it is not above the edge before it | the same |
//! | 13 | the counts do not agree with the numbers | 0 |
//! | 14 | no keeper lies at the place, since it could not be opened | 0 |
//! | 15 | there are more vertices than a keeper can have | 0 |
//! | 16 | there are more vertices than these already | 0 |
//! | 17 | `offsets` has not one place more than there are rows | 0 |
//! | 18 | the first offset is not 0 | 0 |
//! | 19 | an offset is less than the one before it | where the first such stands |
//! | 20 | a row has 2^32 entries or more | which row, as the first of these |
//! | 21 | the last offset is not the number of entries | 0 |
//!
//! `include/kcore.h` declares the functions for C, and `examples/c` calls them. `c/calls.c` tests each that keeps nothing. `kcore_version`
//! tells which version of them is linked.
#![tactic(auto)]

mod answer;
mod calls;
mod csr;
mod keeper;
mod keeping;
mod members;
mod rounds;
mod rows;
mod tallying;
mod updates;

ghost use Rattle.std.specs.Prelude.{◌≡◌, ◌≢◌, ◌≤◌, ◌<◌, ◌+◌, ◌*◌, ◌++◌, ◌&&◌, ◌||◌, ◌==◌, not, true, ℕ, List};
ghost use Rattle.std.specs.Prelude.{length, is_some, Some, take, drop, slice_index};
ghost use Rattle.kc_graph.specs.Bulk.{graph_with};
ghost use Rattle.kc_graph.specs.Certificate.{Certifies};
ghost use Rattle.kc_graph.specs.Core.{AreCoreNumbers};
ghost use Rattle.kc_graph.specs.Lawful.{ArePlaces};
ghost use Rattle.kc_graph.specs.declared.bulk.Edge.{Edge};
ghost use Rattle.kc_tally.specs.Lists.{ListsEachOnce};
ghost use Rattle.kc_tally.specs.Tallies.{AreBetween, AreTallied, capped, later_count, supporter_count};
ghost use Rattle.kc_c.specs.Answers.{first_stranger};
ghost use Rattle.kc_keeper.specs.Members.{AreCoreMembers};
ghost use Rattle.kc_c.specs.Tallying.{later_of, supporters_of, tally_answer};

pub use crate::answer::CallResult;
use crate::answer::answer_to;
use crate::calls::{check_numbers, write_core_numbers, write_decomposition, write_k_core};
pub use crate::csr::{
    kcore_check_csr, kcore_core_numbers_csr, kcore_degeneracy_order_csr, kcore_k_core_csr,
};
pub use crate::keeper::{
    kcore_keeper_align, kcore_keeper_apply, kcore_keeper_before, kcore_keeper_changes,
    kcore_keeper_core, kcore_keeper_core_numbers, kcore_keeper_end, kcore_keeper_grow,
    kcore_keeper_members, kcore_keeper_open, kcore_keeper_order, kcore_keeper_size,
    kcore_keeper_update,
};
pub use crate::keeping::{CallEnd, Content, KeeperPlace};
pub use crate::rounds::kcore_h_index_round;
use crate::tallying::{Keys, judge, tally_piece};
pub use crate::updates::GivenUpdate;
use kc_graph::Edge;
use std::alloc::Global;

/// The version of these functions, 0.1.0: 65,536 times its first number, 256 times its second, and its third. `include/kcore.h` and
/// `python/kcore/_library.py` name the same version.
pub const VERSION: u32 = 0x00_01_00;

/// The version of these functions, by which a caller knows a library that its header or module is not for.
#[unsafe(no_mangle)]
pub extern "C" fn kcore_version() -> u32
    ensures { result ≡ VERSION }
{
    VERSION
}

/// Writes the core number of each vertex to its place in `core`.
#[unsafe(no_mangle)]
pub extern "C" fn kcore_core_numbers(
    alloc: Global,
    vertices: u32,
    edges: &[Edge],
    core: &mut [u32],
) -> CallResult
    ensures known { (result.status == 0 || result.status == 1 || result.status == 4 || result.status == 5) ≡ true }
    ensures done { result.status ≡ 0 → AreCoreNumbers (graph_with vertices edges.now) core.new }
    ensures kept { result.status ≢ 0 → core.new ≡ core.old }
    ensures core_length { result.status == 1 ≡ not (length core.old == vertices) }
    ensures stranger { result.status == 4 ≡ (length core.old == vertices && is_some (first_stranger vertices edges.now)) }
    ensures place { result.status ≡ 4 → first_stranger vertices edges.now ≡ Some result.number }
    ensures no_place { result.status ≢ 4 → result.number ≡ 0 }
{
    answer_to(write_core_numbers(alloc, vertices, edges, core))
}

/// Writes the core number of each vertex to its place in `core`, and to `order` the vertices in an order that certifies these numbers:
/// they never fall along it, and each vertex has at most as many later neighbours as its number (a degeneracy order).
#[unsafe(no_mangle)]
pub extern "C" fn kcore_degeneracy_order(
    alloc: Global,
    vertices: u32,
    edges: &[Edge],
    core: &mut [u32],
    order: &mut [u32],
) -> CallResult
    ensures known { (result.status == 0 || result.status == 1 || result.status == 2 || result.status == 4 || result.status == 5) ≡ true }
    ensures certified { result.status ≡ 0 → Certifies (graph_with vertices edges.now) core.new order.new }
    ensures seidman { result.status ≡ 0 → AreCoreNumbers (graph_with vertices edges.now) core.new }
    ensures core_kept { result.status ≢ 0 → core.new ≡ core.old }
    ensures order_kept { result.status ≢ 0 → order.new ≡ order.old }
    ensures core_length { result.status == 1 ≡ not (length core.old == vertices) }
    ensures order_length { result.status == 2 ≡ (length core.old == vertices && not (length order.old == vertices)) }
    ensures stranger { result.status == 4
        ≡ (length core.old == vertices && length order.old == vertices && is_some (first_stranger vertices edges.now)) }
    ensures place { result.status ≡ 4 → first_stranger vertices edges.now ≡ Some result.number }
    ensures no_place { result.status ≢ 4 → result.number ≡ 0 }
{
    answer_to(write_decomposition(alloc, vertices, edges, core, order))
}

/// Whether `core` has a number for each vertex and `order` certifies these numbers, which are the core numbers then. Both may have any
/// length and content.
#[unsafe(no_mangle)]
pub extern "C" fn kcore_check(
    alloc: Global,
    vertices: u32,
    edges: &[Edge],
    core: &[u32],
    order: &[u32],
) -> CallResult
    ensures known { (result.status == 0 || result.status == 4 || result.status == 5 || result.status == 6) ≡ true }
    ensures certified { result.status ≡ 0 → Certifies (graph_with vertices edges.now) core.now order.now }
    ensures seidman { result.status ≡ 0 → AreCoreNumbers (graph_with vertices edges.now) core.now }
    ensures not_certified { result.status ≡ 6 → Certifies (graph_with vertices edges.now) core.now order.now → ⊥ }
    ensures stranger { result.status == 4 ≡ is_some (first_stranger vertices edges.now) }
    ensures place { result.status ≡ 4 → first_stranger vertices edges.now ≡ Some result.number }
    ensures no_place { result.status ≢ 4 → result.number ≡ 0 }
{
    answer_to(check_numbers(alloc, vertices, edges, core, order))
}

/// Writes the vertices of the k-core to the front of `members`, in ascending order; `number` is how many there are. What stands behind
/// them in `members` stays as it was.
#[unsafe(no_mangle)]
pub extern "C" fn kcore_k_core(
    alloc: Global,
    vertices: u32,
    edges: &[Edge],
    k: u32,
    members: &mut [u32],
) -> CallResult
    ensures known { (result.status == 0 || result.status == 3 || result.status == 4 || result.status == 5) ≡ true }
    ensures done { result.status ≡ 0 → AreCoreMembers (graph_with vertices edges.now) k (take result.number members.new) }
    ensures places { result.status ≡ 0 → result.number ≤ length members.new }
    ensures rest { result.status ≡ 0 → drop result.number members.new ≡ drop result.number members.old }
    ensures kept { result.status ≢ 0 → members.new ≡ members.old }
    ensures members_length { result.status == 3 ≡ not (length members.old == vertices) }
    ensures stranger { result.status == 4 ≡ (length members.old == vertices && is_some (first_stranger vertices edges.now)) }
    ensures place { result.status ≡ 4 → first_stranger vertices edges.now ≡ Some result.number }
    ensures no_place { result.status ≡ 3 → result.number ≡ 0 }
    ensures no_memory { result.status ≡ 5 → result.number ≡ 0 }
{
    answer_to(write_k_core(alloc, vertices, edges, k, members))
}

/// Adds to `counts` what a piece of the edges gives each vertex, by the claimed core numbers and any ranks: a later neighbour where it has
/// the lesser key of an edge's two ends (core number, then rank, then the vertex itself), and a supporter where the other end has no lesser
/// core number. The later neighbours of all vertices come first in `counts`, and then their supporters. Each edge has its lesser end first
/// and is above the one before it, the first one above `after`, which (0, 0) leaves free.
#[unsafe(no_mangle)]
pub extern "C" fn kcore_tally(
    vertices: u32,
    after: Edge,
    edges: &[Edge],
    core: &[u32],
    rank: &[u32],
    counts: &mut [u32],
) -> CallResult
    ensures answered { result ≡ tally_answer vertices after edges.now core.now rank.now counts.old }
    ensures later { result.status ≡ 0 → (v : ℕ) → v < vertices → slice_index (later_of vertices counts.new) v
        ≡ capped (slice_index (later_of vertices counts.old) v + later_count core.now rank.now edges.now v) }
    ensures supporters { result.status ≡ 0 → (v : ℕ) → v < vertices → slice_index (supporters_of vertices counts.new) v
        ≡ capped (slice_index (supporters_of vertices counts.old) v + supporter_count core.now edges.now v) }
    ensures kept { result.status ≢ 0 → counts.new ≡ counts.old }
    ensures once { result.status ≡ 0 → ListsEachOnce vertices edges.now }
    ensures tally { result.status ≡ 0 → (earlier : List Edge)
        → AreTallied core.now rank.now earlier (later_of vertices counts.old) (supporters_of vertices counts.old)
        → AreTallied core.now rank.now (earlier ++ edges.now) (later_of vertices counts.new) (supporters_of vertices counts.new) }
{
    let keys = Keys { core, rank };
    answer_to(tally_piece(vertices, after, edges, keys, counts))
}

/// Whether the counts of all pieces together agree with the claimed core numbers: each vertex has at most as many later neighbours as its
/// number, and at least as many supporters. If the pieces had each edge once, the numbers are the core numbers then.
#[unsafe(no_mangle)]
pub extern "C" fn kcore_verdict(vertices: u32, core: &[u32], counts: &[u32]) -> CallResult
    ensures known { (result.status == 0 || result.status == 1 || result.status == 8 || result.status == 13) ≡ true }
    ensures agreed { result.status ≡ 0 → AreBetween core.now (later_of vertices counts.now) (supporters_of vertices counts.now) }
    ensures not_agreed { result.status ≡ 13 → AreBetween core.now (later_of vertices counts.now) (supporters_of vertices counts.now) → ⊥ }
    ensures seidman { result.status ≡ 0 → (rank : List ℕ) (edges : List Edge) → ListsEachOnce vertices edges
        → AreTallied core.now rank edges (later_of vertices counts.now) (supporters_of vertices counts.now)
        → AreCoreNumbers (graph_with vertices edges) core.now }
    ensures complete { (order rank : List ℕ) (edges : List Edge) → ListsEachOnce vertices edges
        → Certifies (graph_with vertices edges) core.now order → ArePlaces order rank
        → AreTallied core.now rank edges (later_of vertices counts.now) (supporters_of vertices counts.now) → result.status ≡ 0 }
    ensures core_length { result.status == 1 ≡ not (length core.now == vertices) }
    ensures counts_length { result.status == 8 ≡ (length core.now == vertices && not (length counts.now == 2 * vertices)) }
    ensures no_place { result.number ≡ 0 }
{
    answer_to(judge(vertices, core, counts))
}
