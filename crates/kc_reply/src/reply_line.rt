//! What a line of the reply tells.
use crate::level_size::LevelSize;
use crate::standing::Standing;
use kc_report::Line;
use kc_text::Refusal;

/// What a line of the reply tells.
#[derive(Clone, Copy, Debug, Eq, PartialEq)]
pub enum ReplyLine<'a> {
    /// The graph of the start, or a batch that has ended, as the line of a run tells of it.
    Summary(Line),
    /// A batch that is dropped: its number among all batches, from 1, and its first refused line.
    Refused {
        batch: u32,
        refusal: Refusal,
    },
    /// An id whose core number has changed.
    Change {
        id: u32,
        /// The core number before; none where the id is new.
        before: Option<u32>,
        now: u32,
    },
    /// An id that has come into a core.
    Enter {
        id: u32,
    },
    /// An id that has left a core.
    Leave {
        id: u32,
    },
    /// The core number of an id; none where there is no such id.
    Core {
        id: u32,
        core: Option<u32>,
    },
    /// The ids of the core of a level.
    Members {
        level: u32,
        ids: &'a [u32],
    },
    /// How many vertices have each core number.
    Sizes {
        sizes: &'a [LevelSize],
    },
    /// Where one id stands to another; none where one of them is no id.
    Order {
        first: u32,
        second: u32,
        standing: Option<Standing>,
    },
}
