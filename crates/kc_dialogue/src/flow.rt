//! Whether a dialogue goes on.

/// Whether a dialogue goes on after some bytes.
#[derive(Clone, Copy, Debug, PartialEq, Eq)]
pub enum Flow {
    /// It goes on.
    Open,
    /// It has ended: nothing that follows is answered.
    Ended,
}
