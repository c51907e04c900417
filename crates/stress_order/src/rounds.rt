//! What is done to a list, round by round, and what is right of it then.
//!
//! The list begins with item 0. In round k item 2k - 1 is put right after one of the last even items, and 2k right after 0, 2k - 1 is moved
//! behind any even item, and is taken. So the even items that were put stand from the last to the first behind 0, and will; and the odd
//! ones that were put are out.
//!
//! Where an odd item fills its group, the labels are left room at its place. The next items come at another one, before it, so the labels
//! of the groups are used up after some hundreds of rounds, and all groups get new ones.

/// How many rounds a table has.
pub(crate) const ROUNDS: u32 = 10_000;

/// How many items it has: one more is named that no round puts.
pub(crate) const ITEMS: u32 = 2 * ROUNDS + 2;

/// Behind one of how many even items, the last ones, an odd item is first put.
pub(crate) const NEAR: u32 = 64;
