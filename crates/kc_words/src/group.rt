//! The word of a group.
ghost use Rattle.std.specs.Prelude.{◌≡◌};
ghost use Rattle.kc_words.specs.GroupWord.{group_word, group_of, IsFitting};

use crate::layout::TOP_BITS;

/// The bits of the top label.
const TOP_MASK: u64 = (1 << TOP_BITS) - 1;

/// The label of a group among the groups of the two-level list (Dietz and Sleator, 1987). The
/// version counts the stores to the word.
///
/// From the highest bit on: 26 bits of version, 38 of top label.
#[derive(Clone, Copy, Debug, Drop, Eq, PartialEq)]
pub struct GroupWord {
    pub version: u32,
    pub top: u64,
}

impl GroupWord {
    pub fn pack(self) -> u64
        requires { IsFitting self }
        ensures word { result ≡ group_word self }
        ensures read_back { group_of result ≡ self }
    {
        u64::from(self.version) << TOP_BITS | self.top
    }

    /// What a word packs. Every word is the word of a group.
    pub fn of(word: u64) -> Self
        ensures fields { result ≡ group_of word }
        ensures fitting { IsFitting result }
        ensures packed_back { group_word result ≡ word }
    {
        GroupWord {
            version: (word >> TOP_BITS) as u32,
            top: word & TOP_MASK,
        }
    }
}
