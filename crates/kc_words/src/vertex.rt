//! The word of a vertex.
ghost use Rattle.std.specs.Prelude.{◌≡◌, ◌+◌, ◌*◌, ◌/◌, ◌%◌, ◌^◌};
ghost use Rattle.kc_words.specs.VertexWord.{vertex_word, vertex_of};

use crate::layout::CORE_BITS;

/// The bits of a core number.
const CORE_MASK: u64 = (1 << CORE_BITS) - 1;

/// A vertex's core number, and the number of the update that stored it.
///
/// From the highest bit on: 32 bits of stamp, 32 of core number.
#[derive(Clone, Copy, Debug, Drop, Eq, PartialEq)]
pub struct VertexWord {
    pub stamp: u32,
    pub core: u32,
}

impl VertexWord {
    pub fn pack(self) -> u64
        ensures word { result ≡ vertex_word self }
        ensures read_back { vertex_of result ≡ self }
    {
        joined(self.stamp, self.core)
    }

    /// What a word packs. Every word is the word of a vertex.
    pub fn of(word: u64) -> Self
        ensures fields { result ≡ vertex_of word }
        ensures packed_back { vertex_word result ≡ word }
    {
        VertexWord {
            stamp: (word >> CORE_BITS) as u32,
            core: (word & CORE_MASK) as u32,
        }
    }
}

/// The two numbers side by side.
fn joined(high: u32, low: u32) -> u64
    ensures sum { result ≡ high * 2 ^ CORE_BITS + low }
    ensures high_again { result / 2 ^ CORE_BITS ≡ high }
    ensures low_again { result % 2 ^ CORE_BITS ≡ low }
{
    u64::from(high) << CORE_BITS | u64::from(low)
}
