//! Core numbers by rounds that are dealt out to threads.
//!
//! Each vertex begins with its degree. In a round each takes the h-index of its neighbours' numbers, all at once: the greatest k for which
//! at least k of them are at least k. Numbers never rise, and once a round changes none they are the core numbers (Lü, Zhou, Zhang and
//! Stanley 2016). [`peel`] makes the rounds and says how many there were; [`lawful`] finds an order that certifies core numbers which are
//! known, by one thread.
//!
//! `specs/Rounds.antt` says what a round makes of numbers and which round is the last, and `specs/Sharding.antt` when shards have made a
//! round; the other files there serve the crate's own proofs. The laws below have no code. The code asks for a thread for each processor
//! that `rayon` counts, and for at most 32. That more than one thread ran is said by no clause; that the numbers and the count of rounds
//! do not depend on it is. The crate stands on `kc_graph`, `kc_lists`, `kc_shard` (which counts h-indices) and `rayon`.
#![tactic(auto)]

mod crossing;
mod degrees;
mod ordering;
mod peeling;
mod piece;
mod rounds;

ghost use Rattle.std.specs.Prelude.{◌≡◌, ◌≤◌, ◌<◌, ◌+◌, ℕ, suc, List, length, slice_index};
ghost use Rattle.kc_lists.specs.Lists.{total};
ghost use Rattle.kc_graph.specs.SimpleGraph.{SimpleGraph};
ghost use Rattle.kc_graph.specs.Core.{IsCoreNumber, AreCoreNumbers};
ghost use Rattle.kc_hindex.specs.Rounds.{after_rounds, IsSettled, AreRounds, HasRound, IsRoundOf};
ghost use Rattle.kc_hindex.specs.Sharding.{AreShardNumbers, ListsNeighbours};

pub use ordering::lawful;
pub use peeling::{Peeled, peel};

/// Numbers that a round leaves as they are, reached from the degrees, are the core numbers.
pub fn settled_numbers_are_core_numbers()
    ensures { (g : SimpleGraph) (r : ℕ) (numbers : List ℕ) → IsSettled g r → HasRound g r numbers → AreCoreNumbers g numbers }
{}

/// No round raises a number.
pub fn rounds_never_rise()
    ensures { (g : SimpleGraph) (r v : ℕ) → after_rounds g (suc r) v ≤ after_rounds g r v }
{}

/// There is a first round that changes nothing, within one more than the sum of the degrees, and no other.
pub fn rounds_end()
    ensures exist { (g : SimpleGraph) → (n : ℕ) × AreRounds g n × (n ≤ total (after_rounds g 0) g.size + 1) }
    ensures only { (g : SimpleGraph) (m n : ℕ) → AreRounds g m → AreRounds g n → m ≡ n }
{}

/// Rounds can be made by shards, each for the vertices whose neighbours are its rows, in any order: from the lengths of the rows, which
/// are the degrees, until a round changes no number. The numbers are the core numbers then.
pub fn rounds_of_shards_find_core_numbers()
    ensures degrees { (g : SimpleGraph) (numbers : List ℕ) → length numbers ≡ g.size
        → ((v : ℕ) → v < g.size → (ws : List ℕ) × ListsNeighbours g v ws × (slice_index numbers v ≡ length ws)) → HasRound g 0 numbers }
    ensures round { (g : SimpleGraph) (numbers new : List ℕ) → AreShardNumbers g numbers new → IsRoundOf g numbers new }
    ensures core { (g : SimpleGraph) (numbers : ℕ → List ℕ) (last : ℕ) → HasRound g 0 (numbers 0)
        → ((r : ℕ) → r ≤ last → AreShardNumbers g (numbers r) (numbers (suc r))) → numbers (suc last) ≡ numbers last
        → AreCoreNumbers g (numbers last) }
{}
