//! A certificate of core numbers that is a sum over edges.
//!
//! Each vertex has a claimed core number and a rank. Its key is its core number, then its rank, then itself. Each edge gives the end with
//! the lesser key a *later* neighbour, and each end whose neighbour has no lesser core number a *supporter*. The claimed numbers are the
//! core numbers (Seidman 1983) if each vertex has at most as many later neighbours as its number, and at least as many supporters: the
//! vertices in the order of their keys are then an order that certifies them (Zhang, Yu, Zhang and Qin 2017).
//!
//! `count` adds what a piece of the edges gives to the counts, `add` joins the counts of other pieces, and `verdict` judges them. So the
//! edges can be read from a stream, or be spread over machines, with memory for the vertices alone. What must hold of the pieces
//! together is that they have each edge of the graph once.
//!
//! `specs/Keys.antt` has the order by keys, `Tallies.antt` the counts, `Lists.antt` lists that have each edge once, and `Layers.antt`
//! ranks that are rounds. The laws below have no code. The crate stands on `kc_graph` and `kc_lists`.
#![tactic(auto)]

mod agreement;
mod counting;
mod fault;
mod layering;

ghost use Rattle.std.specs.Prelude.{◌≡◌, ◌≤◌, ◌<◌, ◌+◌, ◌^◌, ◌++◌, ℕ, true, List, [], Option, None, Some, All, AllPairs, length, slice_index, slice_index_or};
ghost use Rattle.std.specs.List.{sum_by};
ghost use Rattle.kc_lists.specs.Lists.{Distinct};
ghost use Rattle.kc_graph.specs.Bulk.{graph_with};
ghost use Rattle.kc_graph.specs.Certificate.{Certifies, Enumerates};
ghost use Rattle.kc_graph.specs.Core.{AreCoreNumbers};
ghost use Rattle.kc_graph.specs.SimpleGraph.{SimpleGraph};
ghost use Rattle.kc_graph.specs.declared.bulk.Edge.{Edge};
ghost use Rattle.kc_tally.specs.Lists.{ListsEachOnce, AreDisjoint, first_fault, last_edge, is_up_to, edges_of_pieces};
ghost use Rattle.kc_tally.specs.Tallies.{AreBetween, AreTallied, capped, later_count, supporter_count};
ghost use Rattle.kc_tally.specs.Keys.{stands_before};
ghost use Rattle.kc_tally.specs.Layers.{AreLayers, is_left_at, left_at};

pub use agreement::verdict;
pub use counting::{add, count};
pub use fault::{EdgeFault, FirstFault, first_fault};
pub use layering::layers;

/// Claimed numbers are the core numbers of the graph of all pieces, where the sums of the counts of the pieces agree with them: pieces
/// that have each of their edges once, and none in common.
pub fn sums_that_agree_show_core_numbers()
    ensures { (core rank : List ℕ) (pieces : List (List Edge)) (later supporters : List ℕ) → length core ≤ 2 ^ 32
        → All (ListsEachOnce (length core)) pieces → AllPairs AreDisjoint pieces
        → ((v : ℕ) → v < length core → slice_index later v ≡ capped (sum_by (λ piece. capped (later_count core rank piece v)) pieces))
        → ((v : ℕ) → v < length core → slice_index supporters v ≡ capped (sum_by (λ piece. capped (supporter_count core piece v)) pieces))
        → AreBetween core later supporters → AreCoreNumbers (graph_with (length core) (edges_of_pieces pieces)) core }
{}

/// Counts add up: none for no edges, those of two lists for both, and those of all pieces for the edges of all pieces.
pub fn tallies_add_up()
    ensures none { (core rank zeros : List ℕ) → length zeros ≡ length core → ((v : ℕ) → v < length core → slice_index zeros v ≡ 0)
        → AreTallied core rank [] zeros zeros }
    ensures two { (core rank : List ℕ) (first second : List Edge) (later supporters later' supporters' later'' supporters'' : List ℕ)
        → AreTallied core rank first later supporters → AreTallied core rank second later' supporters'
        → length later'' ≡ length core → length supporters'' ≡ length core
        → ((v : ℕ) → v < length core → slice_index later'' v ≡ capped (slice_index later v + slice_index later' v))
        → ((v : ℕ) → v < length core → slice_index supporters'' v ≡ capped (slice_index supporters v + slice_index supporters' v))
        → AreTallied core rank (first ++ second) later'' supporters'' }
    ensures all { (core rank : List ℕ) (pieces : List (List Edge)) (later supporters : List ℕ)
        → length later ≡ length core → length supporters ≡ length core
        → ((v : ℕ) → v < length core → slice_index later v ≡ capped (sum_by (λ piece. capped (later_count core rank piece v)) pieces))
        → ((v : ℕ) → v < length core → slice_index supporters v ≡ capped (sum_by (λ piece. capped (supporter_count core piece v)) pieces))
        → AreTallied core rank (edges_of_pieces pieces) later supporters }
{}

/// A list without a fault has each of its edges once, and lists without a fault make one where the second goes on after the last edge of
/// the first, or after any that this one is not above.
pub fn lists_without_fault_have_each_edge_once()
    ensures once { (vertices : ℕ) (before : Option Edge) (edges : List Edge) → first_fault vertices 0 before edges ≡ None
        → ListsEachOnce vertices edges }
    ensures goes_on { (vertices : ℕ) (before : Option Edge) (first second : List Edge) → first_fault vertices 0 before first ≡ None
        → first_fault vertices 0 (last_edge before first) second ≡ None → first_fault vertices 0 before (first ++ second) ≡ None }
    ensures joined { (vertices : ℕ) (before : Option Edge) (gate : Edge) (first second : List Edge)
        → first_fault vertices 0 before first ≡ None → is_up_to gate (last_edge before first) ≡ true
        → first_fault vertices 0 (Some gate) second ≡ None → first_fault vertices 0 before (first ++ second) ≡ None }
{}

/// Pieces that have each of their edges once have each once together, where they have no edge in common; and they have none where some
/// function, such as the range of the lesser end or a hash, tells of each edge in which piece it is.
pub fn disjoint_pieces_have_each_edge_once()
    ensures once { (vertices : ℕ) (pieces : List (List Edge)) → All (ListsEachOnce vertices) pieces → AllPairs AreDisjoint pieces
        → ListsEachOnce vertices (edges_of_pieces pieces) }
    ensures apart { (part : Edge → ℕ) (pieces : List (List Edge))
        → ((k : ℕ) (d : List Edge) → k < length pieces → All (λ e. part e ≡ k) (slice_index_or pieces k d)) → AllPairs AreDisjoint pieces }
{}

/// Core numbers have enough supporters, whatever the ranks: where they are refused, some vertex has too many later neighbours by its rank.
pub fn core_numbers_have_enough_supporters()
    ensures { (core : List ℕ) (edges : List Edge) → ListsEachOnce (length core) edges → AreCoreNumbers (graph_with (length core) edges) core
        → (v : ℕ) → v < length core → slice_index core v ≤ supporter_count core edges v }
{}

/// Core numbers agree with their tally also where ranks are rounds: where each vertex has at most as many neighbours as its number that
/// have a greater number, or the same and no lesser rank. So it is where ranks are layers.
pub fn rounds_as_ranks_agree()
    ensures few { (core rank : List ℕ) (edges : List Edge) (later supporters : List ℕ) → length core ≤ 2 ^ 32 → ListsEachOnce (length core) edges
        → let g = graph_with (length core) edges in AreCoreNumbers g core
        → ((v : ℕ) → v < length core → left_at g core rank (slice_index rank v) v ≤ slice_index core v)
        → AreTallied core rank edges later supporters → AreBetween core later supporters }
    ensures layers { (core rank : List ℕ) (edges : List Edge) (later supporters : List ℕ) → length core ≤ 2 ^ 32 → ListsEachOnce (length core) edges
        → let g = graph_with (length core) edges in AreCoreNumbers g core → AreLayers g core rank
        → AreTallied core rank edges later supporters → AreBetween core later supporters }
{}

/// Core numbers have one list of ranks that are layers, and no more.
pub fn layers_are_unique()
    ensures { (g : SimpleGraph) (core first second : List ℕ) → AreLayers g core first → AreLayers g core second → first ≡ second }
{}

/// Core numbers have a list of ranks that are layers.
pub fn core_numbers_have_layers()
    ensures { (g : SimpleGraph) (core : List ℕ) → AreCoreNumbers g core → (rank : List ℕ) × AreLayers g core rank }
{}

/// An order of the vertices by core number, and by layer within each level, certifies the core numbers, whoever of one layer stands first.
/// There is such an order in which names decide between those of one layer, where each vertex has a name of its own.
pub fn orders_by_layers_certify()
    ensures any { (g : SimpleGraph) (core rank order : List ℕ) → AreCoreNumbers g core → AreLayers g core rank → Enumerates g.size order
        → AllPairs (λ v w. is_left_at core rank (slice_index core v) (slice_index rank v) w ≡ true) order → Certifies g core order }
    ensures named { (g : SimpleGraph) (core rank names : List ℕ) → AreCoreNumbers g core → AreLayers g core rank → Distinct names
        → length names ≡ g.size → (order : List ℕ) × Certifies g core order × AllPairs (λ v w. stands_before core rank names v w ≡ true) order }
{}
