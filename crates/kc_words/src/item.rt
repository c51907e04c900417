//! The word of an item.
ghost use Rattle.std.specs.Prelude.{◌≡◌};
ghost use Rattle.kc_words.specs.ItemWord.{item_word, item_of, IsFitting};

use crate::layout::{BOTTOM_BITS, GROUP_BITS};

/// The place of the version.
const VERSION_SHIFT: u32 = GROUP_BITS + BOTTOM_BITS;

/// The bits of a group's number.
const GROUP_MASK: u64 = (1 << GROUP_BITS) - 1;

/// The bits of a bottom label.
const BOTTOM_MASK: u64 = (1 << BOTTOM_BITS) - 1;

/// An item's place in the two-level list: its group, where 0 says that the item is out, and its
/// label in the group (Dietz and Sleator, 1987). The version counts the stores to the word.
///
/// From the highest bit on: 26 bits of version, 26 of group, 12 of bottom label.
#[derive(Clone, Copy, Debug, Drop, Eq, PartialEq)]
pub struct ItemWord {
    pub version: u32,
    pub group: u32,
    pub bottom: u32,
}

impl ItemWord {
    pub fn pack(self) -> u64
        requires { IsFitting self }
        ensures word { result ≡ item_word self }
        ensures read_back { item_of result ≡ self }
    {
        u64::from(self.version) << VERSION_SHIFT
            | u64::from(self.group) << BOTTOM_BITS
            | u64::from(self.bottom)
    }

    /// What a word packs. Every word is the word of an item.
    pub fn of(word: u64) -> Self
        ensures fields { result ≡ item_of word }
        ensures fitting { IsFitting result }
        ensures packed_back { item_word result ≡ word }
    {
        ItemWord {
            version: (word >> VERSION_SHIFT) as u32,
            group: (word >> BOTTOM_BITS & GROUP_MASK) as u32,
            bottom: (word & BOTTOM_MASK) as u32,
        }
    }
}
