//! The line that is refused.
use crate::kind::Kind;

/// The first line that is refused, and why.
#[derive(Clone, Copy, Debug, PartialEq, Eq)]
pub struct Refusal {
    /// The line's number, from 1; 0 where no line is meant.
    pub line: u64,
    pub kind: Kind,
}
