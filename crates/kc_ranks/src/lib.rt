//! The rounds of h-indices as ranks of a certificate: what ties `kc_hindex` to `kc_tally`.
//!
//! An engine that finds core numbers by rounds can keep for each vertex the last round that changed its number. These are ranks by which
//! right numbers always agree with their tally, so it needs no further step to rank the vertices. `specs/LastRounds.antt` says which ranks
//! these are. Nothing here runs. The crate stands on `kc_graph`, `kc_lists`, `kc_shard`, `kc_hindex` and `kc_tally`.
#![tactic(auto)]

ghost use Rattle.std.specs.Prelude.{◌≡◌, ◌≤◌, ◌<◌, ◌^◌, ℕ, List, length, slice_index};
ghost use Rattle.kc_graph.specs.Bulk.{graph_with};
ghost use Rattle.kc_graph.specs.Core.{AreCoreNumbers};
ghost use Rattle.kc_graph.specs.SimpleGraph.{SimpleGraph};
ghost use Rattle.kc_graph.specs.declared.bulk.Edge.{Edge};
ghost use Rattle.kc_tally.specs.Lists.{ListsEachOnce};
ghost use Rattle.kc_tally.specs.Layers.{left_at};
ghost use Rattle.kc_tally.specs.Tallies.{AreBetween, AreTallied};
ghost use Rattle.kc_hindex.specs.Rounds.{HasRound};
ghost use Rattle.kc_ranks.specs.LastRounds.{AreLastChanges, AreLastRounds};

/// Who keeps for each vertex the last round that changed its number has these ranks.
pub fn last_changes_are_last_rounds()
    ensures { (g : SimpleGraph) (numbers : ℕ → List ℕ) (last : ℕ) (rank : List ℕ) → ((r : ℕ) → r ≤ last → HasRound g r (numbers r))
        → AreLastChanges numbers last rank → AreLastRounds g (numbers last) rank }
{}

/// Core numbers agree with their tally where the rank of each vertex is the last round that changed its number. Each vertex has then at
/// most as many neighbours as its number that have a greater number, or the same and no lesser rank.
pub fn last_rounds_as_ranks_agree()
    ensures few { (g : SimpleGraph) (core rank : List ℕ) → AreCoreNumbers g core → AreLastRounds g core rank
        → (v : ℕ) → v < g.size → left_at g core rank (slice_index rank v) v ≤ slice_index core v }
    ensures agree { (core rank : List ℕ) (edges : List Edge) (later supporters : List ℕ) → length core ≤ 2 ^ 32 → ListsEachOnce (length core) edges
        → let g = graph_with (length core) edges in AreCoreNumbers g core → AreLastRounds g core rank
        → AreTallied core rank edges later supporters → AreBetween core later supporters }
{}
