//! The calls for pieces of the edges.
ghost use Rattle.std.specs.Prelude.{◌≡◌, ◌≢◌, ◌&&◌, ◌<◌, ◌+◌, ◌*◌, ◌++◌, ◌==◌, not, ◌||◌, true, ℕ, List, length, slice_index};
ghost use Rattle.kc_graph.specs.Bulk.{graph_with};
ghost use Rattle.kc_graph.specs.Certificate.{Certifies};
ghost use Rattle.kc_graph.specs.Core.{AreCoreNumbers};
ghost use Rattle.kc_graph.specs.Lawful.{ArePlaces};
ghost use Rattle.kc_graph.specs.declared.bulk.Edge.{Edge};
ghost use Rattle.kc_tally.specs.Lists.{ListsEachOnce};
ghost use Rattle.kc_tally.specs.Tallies.{AreTallied, AreBetween, capped, later_count, supporter_count};
ghost use Rattle.kc_c.specs.Answers.{answer_to};
ghost use Rattle.kc_c.specs.Tallying.{later_of, piece_answer, supporters_of, tally_answer};

use crate::answer::Refusal;
use kc_graph::Edge;
use kc_tally::{EdgeFault, FirstFault, count, verdict};

/// How a piece is refused.
fn refusal_of(first: FirstFault) -> Refusal
    ensures { answer_to (Err result) ≡ piece_answer (Some first) }
{
    match first.fault {
        EdgeFault::NotAVertex => Refusal::NotAVertex(first.place),
        EdgeFault::Loop => Refusal::Loop(first.place),
        EdgeFault::GreaterFirst => Refusal::GreaterFirst(first.place),
        EdgeFault::NotAbove => Refusal::NotAbove(first.place),
    }
}

/// What the keys of the vertices are made of. That of a vertex is its claimed core number, then its rank, then the vertex itself.
#[derive(Clone, Copy, Drop)]
pub(crate) struct Keys<'a> {
    pub(crate) core: &'a [u32],
    pub(crate) rank: &'a [u32],
}

/// Adds to the counts what a piece of the edges gives.
pub(crate) fn tally_piece(
    vertices: u32,
    after: Edge,
    edges: &[Edge],
    keys: Keys,
    counts: &mut [u32],
) -> Result<usize, Refusal>
    ensures answered { answer_to result ≡ tally_answer vertices after edges.now keys.entry.core.now keys.entry.rank.now counts.old }
    ensures later { (answer_to result).status ≡ 0 → (v : ℕ) → v < vertices → slice_index (later_of vertices counts.new) v
        ≡ capped (slice_index (later_of vertices counts.old) v + later_count keys.entry.core.now keys.entry.rank.now edges.now v) }
    ensures supporters { (answer_to result).status ≡ 0 → (v : ℕ) → v < vertices → slice_index (supporters_of vertices counts.new) v
        ≡ capped (slice_index (supporters_of vertices counts.old) v + supporter_count keys.entry.core.now edges.now v) }
    ensures kept { (answer_to result).status ≢ 0 → counts.new ≡ counts.old }
    ensures once { (answer_to result).status ≡ 0 → ListsEachOnce vertices edges.now }
    ensures tally { (answer_to result).status ≡ 0 → (earlier : List Edge)
        → AreTallied keys.entry.core.now keys.entry.rank.now earlier (later_of vertices counts.old) (supporters_of vertices counts.old)
        → AreTallied keys.entry.core.now keys.entry.rank.now (earlier ++ edges.now) (later_of vertices counts.new) (supporters_of vertices counts.new) }
{
    let Keys { core, rank } = keys;
    let places = vertices as usize;
    if core.len() != places {
        return Err(Refusal::WrongCoreLength);
    }
    if rank.len() != places {
        return Err(Refusal::WrongRankLength);
    }
    if counts.len() != 2 * places {
        return Err(Refusal::WrongCountsLength);
    }
    let (later, supporters) = counts.split_at_mut(places);
    match count(core, rank, Some(after), edges, later, supporters) {
        Ok(()) => Ok(0),
        Err(first) => Err(refusal_of(first)),
    }
}

/// Whether the counts agree with the numbers.
pub(crate) fn judge(vertices: u32, core: &[u32], counts: &[u32]) -> Result<usize, Refusal>
    ensures known { ((answer_to result).status == 0 || (answer_to result).status == 1 || (answer_to result).status == 8
        || (answer_to result).status == 13) ≡ true }
    ensures agreed { (answer_to result).status ≡ 0
        → AreBetween core.now (later_of vertices counts.now) (supporters_of vertices counts.now) }
    ensures not_agreed { (answer_to result).status ≡ 13
        → AreBetween core.now (later_of vertices counts.now) (supporters_of vertices counts.now) → ⊥ }
    ensures seidman { (answer_to result).status ≡ 0 → (rank : List ℕ) (edges : List Edge) → ListsEachOnce vertices edges
        → AreTallied core.now rank edges (later_of vertices counts.now) (supporters_of vertices counts.now)
        → AreCoreNumbers (graph_with vertices edges) core.now }
    ensures complete { (order rank : List ℕ) (edges : List Edge) → ListsEachOnce vertices edges
        → Certifies (graph_with vertices edges) core.now order → ArePlaces order rank
        → AreTallied core.now rank edges (later_of vertices counts.now) (supporters_of vertices counts.now) → (answer_to result).status ≡ 0 }
    ensures core_length { (answer_to result).status == 1 ≡ not (length core.now == vertices) }
    ensures counts_length { (answer_to result).status == 8 ≡ (length core.now == vertices && not (length counts.now == 2 * vertices)) }
    ensures no_place { (answer_to result).number ≡ 0 }
{
    let places = vertices as usize;
    if core.len() != places {
        return Err(Refusal::WrongCoreLength);
    }
    if counts.len() != 2 * places {
        return Err(Refusal::WrongCountsLength);
    }
    let (later, supporters) = counts.split_at(places);
    if verdict(core, later, supporters) {
        Ok(0)
    } else {
        Err(Refusal::NotAgreed)
    }
}
