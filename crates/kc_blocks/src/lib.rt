//! A list of numbers that is kept in blocks, so that an entry goes in at any place without moving all that stand behind it.
//!
//! `BlockList` is a list whose entries lie in blocks of at most `BLOCK_ENTRIES`, one after the other, as in an unrolled list (Shao, Reppy
//! and Appel 1994). A table says where each block begins, so an entry is found by halving that table. An entry that goes in moves entries
//! of its block alone, and the later blocks begin one place later; a full block is cut in two. The first block stands by itself, so a list
//! that is no longer than one block takes the memory of a vector. Contracts see the list of the entries, as they see a vector's;
//! `specs/Placing.antt` says how the blocks hold it. Lemmas on lists are `kc_lists`'.
#![tactic(auto)]

mod blocks;
mod list;

pub use blocks::BLOCK_ENTRIES;
pub use list::BlockList;
