//! What becomes of refused lines.

/// What becomes of a refused line in a batch. Before any batch line it ends the reading in either case.
#[derive(Clone, Copy, Debug, PartialEq, Eq)]
pub enum BadLines {
    /// It ends the reading.
    Stop,
    /// It drops its batch: what the batch has told is forgotten, and its lines that follow are passed over.
    Batch,
}
