//! How a dialogue ends.

/// How a dialogue ends.
#[derive(Clone, Copy, Debug, PartialEq, Eq)]
pub enum DialogueEnd {
    /// The input ended, and all that it means was written.
    Done,
    /// The replier ended it: nothing that follows would be answered, and all answers were written.
    Ended,
    /// A read failed. All answers to what was read were written.
    ReadFault,
    /// A write failed since the reader at the other end went away.
    ReaderGone,
    /// A write failed for another reason.
    WriteFault,
    /// There was no memory. What the replier had put was written.
    NoMemory,
    /// So many reads were made that no count of a `u64` is left. All answers to what was read were written.
    Exhausted,
}
