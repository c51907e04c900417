//! How many items a group has, how far apart the labels of a half stand, and how much a call writes.
//!
//! Each limit has a name of its own, also where two of them are one number.

use kc_words::BOTTOM_ROOM;

/// The most items of a group.
pub const GROUP_ITEMS: usize = 64;

/// The items of a group at the opening. The last group may have fewer.
pub const OPENING_ITEMS: u32 = 32;

/// The items of each half, where a full group is split.
pub const HALF_ITEMS: u32 = 32;

/// How far apart the labels of the upper half stand after a split.
pub const HALF_STEP: u64 = BOTTOM_ROOM / (HALF_ITEMS as u64 + 1);

/// A put right after the item that was put last takes its label this part of the gap from the lower
/// end, and one at the place of the put before it this part from the upper end: puts in a row are
/// followed by more, and leave them the room.
pub const PUT_SHARE: u32 = 20;

/// Where a group is split, the label of the new one stands this part of the gap from one end, so that
/// the half that grows has nearly all of it.
pub const SPLIT_SHARE: u64 = 256;

/// The most words that a call writes beside those of groups that are in use: the new group's, those
/// of the upper half, those of a group that is spread, and the moved item's.
pub const ITEM_WRITES: usize = 1 + HALF_ITEMS as usize + GROUP_ITEMS + 1;
