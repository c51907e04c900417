//! The word that says what comes next.
ghost use Rattle.std.specs.Prelude.{◌≡◌, ◌↔◌};
ghost use Rattle.kc_words.specs.NoteWord.{note_word, note_of, spare_of, IsFitting};

use crate::layout::{ADD_SHIFT, ITEM_BITS, KIND_SHIFT, VERTEX_BITS};

/// The bits of a vertex and of an item.
const VERTEX_MASK: u64 = (1 << VERTEX_BITS) - 1;

const ITEM_MASK: u64 = (1 << ITEM_BITS) - 1;

/// What the writer of a table is about to do.
///
/// The two highest bits say which: 0 for nothing, 1 for `Enter`, 2 for `Put`, 3 for `Take`. `Enter`
/// has `add` in bit 61, `u` in 59 to 30 and `v` in 29 to 0. `Put` has `x` in 61 to 31 and `p` in 30
/// to 0, and `Take` has `x` in 30 to 0. All other bits are 0.
///
/// The index of an update has no room beside its ends. So it is stored right before an `Enter`, as a
/// word of kind 0: there it stands in 31 to 0.
#[derive(Clone, Copy, Debug, Drop, Eq, PartialEq)]
pub enum NoteWord {
    Nothing,
    /// An edge is added to or removed from the graph, by the update whose index stood here before.
    Enter { add: bool, u: u32, v: u32 },
    /// Item `x` comes to stand right after item `p`.
    Put { x: u32, p: u32 },
    /// Item `x` leaves the list.
    Take { x: u32 },
}

impl NoteWord {
    pub fn pack(self) -> u64
        requires { IsFitting self }
        ensures word { result ≡ note_word self }
        ensures read_back { note_of result ≡ self }
    {
        match self {
            NoteWord::Nothing => 0,
            NoteWord::Enter { add, u, v } => {
                let kind = if add { 3u64 } else { 2u64 };
                kind << ADD_SHIFT | u64::from(u) << VERTEX_BITS | u64::from(v)
            }
            NoteWord::Put { x, p } => 2u64 << KIND_SHIFT | u64::from(x) << ITEM_BITS | u64::from(p),
            NoteWord::Take { x } => 3u64 << KIND_SHIFT | u64::from(x),
        }
    }

    /// What a word packs; bits that its kind does not use are passed over.
    pub fn of(word: u64) -> Self
        ensures fields { result ≡ note_of word }
        ensures fitting { IsFitting result }
        ensures packed_back { (note_word result ≡ word) ↔ (spare_of word ≡ 0) }
    {
        match word >> KIND_SHIFT {
            0 => NoteWord::Nothing,
            1 => NoteWord::Enter {
                add: word >> ADD_SHIFT & 1 == 1,
                u: (word >> VERTEX_BITS & VERTEX_MASK) as u32,
                v: (word & VERTEX_MASK) as u32,
            },
            2 => NoteWord::Put {
                x: (word >> ITEM_BITS & ITEM_MASK) as u32,
                p: (word & ITEM_MASK) as u32,
            },
            _ => NoteWord::Take {
                x: (word & ITEM_MASK) as u32,
            },
        }
    }
}
