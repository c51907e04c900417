//! The h-index of numbers, and rounds of h-indices on a shard of a graph.
//!
//! The h-index of numbers is the greatest k for which at least k of them are at least k (Hirsch 2005). Core numbers are found by rounds in
//! which each vertex takes the h-index of its neighbours' numbers (Lü, Zhou, Zhang and Stanley 2016). A round needs only the neighbours of a
//! vertex and the present numbers, so each of many machines can make it for some of the vertices (Montresor, De Pellegrini and Miorandi
//! 2013). [`h_index_round`] does so for a shard, which is a list of rows: each has the neighbours of one vertex.
//!
//! A shard comes as two lists in the form that is known as CSR. `neighbours` has the entries of all rows, one row after the other, and
//! `offsets` tells for each row at which entry it begins, and last how many entries there are. A [`ShardFault`] says what is wrong with one.
//! [`h_index_of`] counts for one row, and serves the crates above.
//!
//! `specs/HIndex.antt` says what an h-index is, and `specs/Shards.antt` what a shard is, what is wrong with one, and what a round makes of it.
//! The laws below have no code. The crate stands on `kc_lists`.
#![tactic(auto)]

mod counting;
mod fault;
mod round;

ghost use Rattle.std.specs.Prelude.{◌≡◌, ◌↔◌, ℕ, List, None};
ghost use Rattle.kc_shard.specs.HIndex.{IsHIndex, h_index};
ghost use Rattle.kc_shard.specs.Shards.{IsShard, shard_fault};

pub use counting::h_index_of;
pub use fault::ShardFault;
pub use round::{RoundError, h_index_round};

/// A list has one h-index.
pub fn lists_have_one_h_index()
    ensures is { (xs : List ℕ) → IsHIndex xs (h_index xs) }
    ensures only { (xs : List ℕ) (h : ℕ) → IsHIndex xs h → h ≡ h_index xs }
{}

/// What is no shard has a fault, and a shard has none.
pub fn shards_have_no_fault()
    ensures { (rows vertices : ℕ) (offsets neighbours : List ℕ)
        → (shard_fault rows vertices offsets neighbours ≡ None) ↔ IsShard rows vertices offsets neighbours }
{}
