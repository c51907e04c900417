//! Whether counts show that claimed core numbers are right.
ghost use Rattle.std.specs.Prelude.{◌≡◌, ◌↔◌, ◌≤◌, ◌^◌, IsTrue, ℕ, List, length};
ghost use Rattle.kc_graph.specs.Bulk.{graph_with};
ghost use Rattle.kc_graph.specs.Certificate.{Certifies};
ghost use Rattle.kc_graph.specs.Core.{AreCoreNumbers};
ghost use Rattle.kc_graph.specs.Lawful.{ArePlaces};
ghost use Rattle.kc_graph.specs.declared.bulk.Edge.{Edge};
ghost use Rattle.kc_tally.specs.Lists.{ListsEachOnce};
ghost use Rattle.kc_tally.specs.Tallies.{AreBetween, AreTallied};

/// Whether each vertex has at most as many later neighbours as its core number, and at least as many supporters. The lists may have any
/// length; where they have not one place for each vertex the answer is no.
///
/// If the counts are the tally of all edges of a graph, each once, then yes says that the numbers are its core numbers. For any order
/// that certifies them, with the places in it as ranks, the answer is yes.
///
/// # Example
///
/// ```rust
/// use kc_tally::verdict;
///
/// // A triangle, and the vertex 3 that hangs on it: what `count` counts with the core numbers, and with 2 for each vertex.
/// let right = verdict(&[2, 2, 2, 1], &[2, 1, 0, 1], &[2, 2, 2, 1]); // true
/// let too_high = verdict(&[2, 2, 2, 2], &[2, 1, 0, 1], &[2, 2, 3, 1]); // false: 3 has one supporter
/// ```
pub fn verdict(core: &[u32], later: &[u32], supporters: &[u32]) -> bool
    ensures exact { IsTrue result ↔ AreBetween core.now later.now supporters.now }
    ensures seidman { (rank : List ℕ) (edges : List Edge) → IsTrue result → length core.now ≤ 2 ^ 32 → ListsEachOnce (length core.now) edges
        → AreTallied core.now rank edges later.now supporters.now → AreCoreNumbers (graph_with (length core.now) edges) core.now }
    ensures complete { (order rank : List ℕ) (edges : List Edge) → length core.now ≤ 2 ^ 32 → ListsEachOnce (length core.now) edges
        → Certifies (graph_with (length core.now) edges) core.now order → ArePlaces order rank
        → AreTallied core.now rank edges later.now supporters.now → IsTrue result }
{
    if later.len() != core.len() || supporters.len() != core.len() {
        return false;
    }
    for (v, number) in core.iter().enumerate() {
        if later[v] > *number || supporters[v] < *number {
            return false;
        }
    }
    true
}
